// The answer to a query: the setting that it asks for, as a payload.
ghost use Rattle.std.specs.Prelude.{◌≡◌, ◌≤◌, true, [], ◌∷◌, ◌++◌, length, drop};
ghost use Rattle.wire.specs.Frames.{lawful_length};
ghost use Rattle.wire.specs.Items.{frame_item};
ghost use Rattle.settings.specs.Values.{values};
ghost use Rattle.commands.specs.Settings.{configuration};
ghost use Rattle.commands.specs.Commands.{request_of, command, sets, query_id, told_payload, told_change};

use crate::command::Query;
use settings::{Section, Settings};

impl Query {
    // The id of the frame that asks for the setting, and of the one that tells it.
    pub fn id(self) -> u8
        ensures { result ≡ query_id self }
    {
        match self {
            Query::Pulse => 0x03,
            Query::Interval => 0x04,
            Query::Group => 0x08,
        }
    }

    // The payload that tells the setting, over the start of a buffer, and its length; sent back, it sets the same value.
    // The buffer is the caller's, a rule of the project for what is handed out.
    pub fn payload(self, settings: &Settings, out: &mut [u8; 56]) -> usize
        ensures size { result ≡ length (told_payload self (configuration (values settings.now))) }
        ensures out { out.new ≡ told_payload self (configuration (values settings.now)) ++ drop (length (told_payload self (configuration (values settings.now)))) out.old }
        ensures lawful { lawful_length (length (told_payload self (configuration (values settings.now)))) ≡ true }
        ensures few { length (told_payload self (configuration (values settings.now))) ≤ 56 }
        ensures back { request_of (frame_item 0x06 (query_id self) (told_payload self (configuration (values settings.now)))) ≡ command (sets (told_change self (configuration (values settings.now)) ∷ [])) }
    {
        match self {
            Query::Pulse => settings.kept_string(Section::Pulse, out),
            Query::Interval => {
                let [low, high] = settings.interval.milliseconds.to_le_bytes();
                out[0..4].copy_from_slice(&[low, high, 0, 0]);
                4
            }
            Query::Group => settings.kept_string(Section::Group, out),
        }
    }
}
