// What a frame of class 06 asks, by its id.
ghost use Rattle.std.specs.Prelude.{◌≡◌};
ghost use Rattle.commands.specs.Commands.{message_at, message_rate, reset, time_pulse, fix_interval, configure, group_setting, frame_request};
ghost use Rattle.commands.specs.Seen.{asked};

use crate::command::{Command, Query, Sections};
use settings::{Group, Message, Pulse, Setting};

// The message of a class and an id.
fn message_of(class: u8, id: u8) -> Option<Message>
    ensures { result ≡ message_at class id }
{
    match (class, id) {
        (0x4e, 0x00) => Some(Message::Gga),
        (0x4e, 0x01) => Some(Message::Gll),
        (0x4e, 0x04) => Some(Message::Rmc),
        (0x4e, 0x08) => Some(Message::Zda),
        (0x01, 0x10) => Some(Message::TimeUtc),
        _ => None,
    }
}

// The rate of one message.
fn message_rate(payload: &[u8]) -> Option<Command>
    ensures { asked result ≡ message_rate payload.now }
{
    let [class, id, low, high] = payload else {
        return None;
    };
    let message = message_of(*class, *id)?;
    if *high != 0 {
        return None;
    }
    Some(Command::Set(Setting::Rate(message, *low)))
}

// A start.
fn restart(payload: &[u8]) -> Option<Command>
    ensures { asked result ≡ reset payload.now }
{
    match payload {
        [_, _, 0 | 1 | 2 | 4, number] => Command::start(*number),
        _ => None,
    }
}

// The pulse, or a query; it and the group setting stay two functions, since one would take the query, the reader and the setting's case.
fn time_pulse(payload: &[u8]) -> Option<Command>
    ensures { asked result ≡ time_pulse payload.now }
{
    if payload.is_empty() {
        return Some(Command::Query(Query::Pulse));
    }
    let pulse = Pulse::read(payload)?;
    Some(Command::Set(Setting::Pulse(pulse)))
}

// The interval between fixes, or a query.
fn fix_interval(payload: &[u8]) -> Option<Command>
    ensures { asked result ≡ fix_interval payload.now }
{
    match payload {
        [] => Some(Command::Query(Query::Interval)),
        [low, high, _, _] => Command::interval(u16::from_le_bytes([*low, *high])),
        _ => None,
    }
}

// Sections to clear, save or load.
fn configure(payload: &[u8]) -> Option<Command>
    ensures { asked result ≡ configure payload.now }
{
    let [low, high, mode, _] = payload else {
        return None;
    };
    let sections = Sections::from(u16::from_le_bytes([*low, *high]));
    match *mode {
        0 => Some(Command::Clear(sections)),
        1 => Some(Command::Save(sections)),
        2 => Some(Command::Load(sections)),
        _ => None,
    }
}

// The group setting, or a query.
fn group_setting(payload: &[u8]) -> Option<Command>
    ensures { asked result ≡ group_setting payload.now }
{
    if payload.is_empty() {
        return Some(Command::Query(Query::Group));
    }
    let group = Group::read(payload)?;
    Some(Command::Set(Setting::Group(group)))
}

// A frame of class 06.
pub(crate) fn frame_request(id: u8, payload: &[u8]) -> Option<Command>
    ensures { asked result ≡ frame_request id payload.now }
{
    match id {
        0x01 => message_rate(payload),
        0x02 => restart(payload),
        0x03 => time_pulse(payload),
        0x04 => fix_interval(payload),
        0x05 => configure(payload),
        0x08 => group_setting(payload),
        _ => None,
    }
}
