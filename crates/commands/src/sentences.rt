// What a sentence asks, by its first field.
ghost use Rattle.std.specs.Prelude.{◌≡◌, Some};
ghost use Rattle.commands.specs.Fields.{only_field, address_of, behind_address, one_digit, up_to_five_digits, digit_fields};
ghost use Rattle.commands.specs.Commands.{save_all, with_field, set_baud, set_interval, set_systems, start_by, rates_request, sentence_request};
ghost use Rattle.commands.specs.Seen.{asked, seen_request};

use crate::command::{Command, Rates, Sections, Unheeded};
use crate::fields::{address_size, digit_fields, one_digit, up_to_five_digits};
use settings::{Baud, Setting, Systems};

// All sections saved; no field may follow.
fn save_all(rest: &[u8]) -> Option<Command>
    ensures { asked result ≡ save_all rest.now }
{
    if !rest.is_empty() {
        return None;
    }
    Some(Command::Save(Sections::all()))
}

// A baud code; it and the systems stay two functions: one would take as closures all that they don't share, and be longer.
fn set_baud(rest: &[u8]) -> Option<Command>
    ensures { asked result ≡ with_field one_digit set_baud (only_field rest.now) }
{
    let baud = Baud::new(one_digit(rest)?)?;
    Some(Command::Set(Setting::Baud(baud)))
}

// An interval between fixes.
fn set_interval(rest: &[u8]) -> Option<Command>
    ensures { asked result ≡ with_field up_to_five_digits set_interval (only_field rest.now) }
{
    let number = up_to_five_digits(rest)?;
    let milliseconds = u16::try_from(number).ok()?;
    Command::interval(milliseconds)
}

// The satellite systems in use.
fn set_systems(rest: &[u8]) -> Option<Command>
    ensures { asked result ≡ with_field one_digit set_systems (only_field rest.now) }
{
    let systems = Systems::new(one_digit(rest)?)?;
    Some(Command::Set(Setting::Systems(systems)))
}

// A start.
fn restart(rest: &[u8]) -> Option<Command>
    ensures { asked result ≡ with_field one_digit start_by (only_field rest.now) }
{
    Command::start(one_digit(rest)?)
}

// The rates among 13 or 14 fields.
fn rates(fields: &[Option<u8>]) -> Option<Command>
    ensures { asked result ≡ rates_request (Some fields.now) }
{
    if fields.len() != 13 && fields.len() != 14 {
        return None;
    }
    Some(Command::SetRates(Rates {
        gga: fields[0],
        gll: fields[1],
        rmc: fields[4],
        zda: fields[6],
    }))
}

// The rates of four messages.
fn set_rates(rest: &[u8]) -> Option<Command>
    ensures { asked result ≡ rates_request (digit_fields rest.now) }
{
    rates(digit_fields(rest)?.as_slice())
}

// A sentence, by its first field and by what stands behind it.
// Each arm ends in a Result of its own, since an address that names no command is passed over and not wrong.
fn request_by(address: &[u8], rest: &[u8]) -> Result<Command, Unheeded>
    ensures { seen_request result ≡ sentence_request address.now rest.now }
{
    match address {
        b"PCAS00" => save_all(rest).ok_or(Unheeded::Wrong),
        b"PCAS01" => set_baud(rest).ok_or(Unheeded::Wrong),
        b"PCAS02" => set_interval(rest).ok_or(Unheeded::Wrong),
        b"PCAS03" => set_rates(rest).ok_or(Unheeded::Wrong),
        b"PCAS04" => set_systems(rest).ok_or(Unheeded::Wrong),
        b"PCAS10" => restart(rest).ok_or(Unheeded::Wrong),
        _ => Err(Unheeded::PassedOver),
    }
}

// A sentence, by its body.
pub(crate) fn sentence_request(body: &[u8]) -> Result<Command, Unheeded>
    ensures { seen_request result ≡ sentence_request (address_of body.now) (behind_address body.now) }
{
    let size = address_size(body);
    request_by(&body[..size], &body[size..])
}
