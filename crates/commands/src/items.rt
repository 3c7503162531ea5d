// What a frame or a sentence is to the card.
ghost use Rattle.std.specs.Prelude.{◌≡◌};
ghost use Rattle.wire.specs.Seen.{item_of};
ghost use Rattle.commands.specs.Commands.{request_of};
ghost use Rattle.commands.specs.Seen.{seen_request};

use crate::command::{Command, Unheeded};
use crate::frames::frame_request;
use crate::sentences::sentence_request;
use wire::Item;

// The command that it is, or why it is none.
pub fn decode(item: Item<'_>) -> Result<Command, Unheeded>
    ensures { seen_request result ≡ request_of (item_of item.entry) }
{
    match item {
        Item::Frame(frame) => {
            if frame.class != 0x06 {
                return Err(Unheeded::PassedOver);
            }
            frame_request(frame.id, frame.payload).ok_or(Unheeded::Wrong)
        }
        Item::Sentence(body) => sentence_request(body),
    }
}
