// A card: the settings in force on their memory, and the bytes that are not read yet.
ghost use Rattle.rule.specs.Calls.{Waiting};

use arrayvec::ArrayVec;
use inforce::InForce;

#[derive(Drop)]
pub struct Card<M> {
    pub(crate) inside: InForce<M>,
    pub(crate) unread: ArrayVec<u8, 81>,
    ghost waits: { Waiting unread.items },
}
