// A sentence's body under way.
use texts::Text;

// At most 76 bytes.
#[derive(Drop)]
pub struct Line {
    pub(crate) text: Text<76>,
}
