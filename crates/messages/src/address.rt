// How a sentence starts.
ghost use Rattle.std.specs.Prelude.{◌≡◌, ◌≤◌, length};
ghost use Rattle.bodies.specs.Bodies.{sender, address};
ghost use Rattle.messages.specs.Lines.{written};

use crate::line::Line;
use settings::Systems;
use texts::Text;

// Who sends, by the systems in use.
fn sender(systems: Systems) -> [u8; 2]
    ensures text { result ≡ sender systems.mask }
    ensures len { length result ≡ 2 }
{
    match systems.mask {
        1 => *b"GP",
        2 => *b"BD",
        4 => *b"GL",
        _ => *b"GN",
    }
}

// A line that starts with the sender and the name of a sentence.
pub fn start(systems: Systems, name: &[u8]) -> Line
    requires { length name.now ≤ 3 }
    ensures text { written result ≡ address systems.mask name.now }
    ensures len { length (written result) ≤ 5 }
{
    let mut text = Text::new();
    text.append(&sender(systems));
    text.append(name);
    Line { text }
}
