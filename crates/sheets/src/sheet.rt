// The sheet of the settings, and its writer.
ghost use Rattle.std.specs.Prelude.{◌≡◌, ◌+◌, ◌≤◌, [], ◌∷◌, ◌++◌, length, decimal};
ghost use Rattle.settings.specs.Values.{values};
ghost use Rattle.commands.specs.Settings.{configuration};
ghost use Rattle.sheets.specs.Sheet.{values_line, sheet_text, sheet_written};

use crate::refusal::Refusal;
use settings::Settings;
use texts::Text;

// The least room for a sheet.
const ROOM: usize = 96;

// A number in its at most five digits.
#[tactic(auto, using(crate::proofs::Digits::five_digits))]
fn number(text: &mut Text<ROOM>, n: u16)
    requires { length text.old + 5 ≤ 96 }
    ensures text { text.new ≡ text.old ++ decimal n }
    ensures len { length text.new ≤ length text.old + 5 }
{
    text.decimal(u32::from(n));
}

// A comma, and a number behind it.
fn field(text: &mut Text<ROOM>, n: u16)
    requires { length text.old + 6 ≤ 96 }
    ensures text { text.new ≡ text.old ++ (44 ∷ []) ++ decimal n }
    ensures len { length text.new ≤ length text.old + 6 }
{
    text.push(b',');
    number(text, n);
}

// The eight values, with a comma between two of them and LF at the end.
// One by one: a loop over the rates would be as long, and hide which value is which.
fn values_line(text: &mut Text<ROOM>, settings: &Settings)
    requires { length text.old + 48 ≤ 96 }
    ensures text { text.new ≡ text.old ++ values_line (configuration (values settings.now)) }
    ensures len { length text.new ≤ length text.old + 48 }
{
    let [gga, gll, rmc, zda, utc] = settings.messages.rates();
    number(text, u16::from(settings.baud.code));
    field(text, u16::from(gga));
    field(text, u16::from(gll));
    field(text, u16::from(rmc));
    field(text, u16::from(zda));
    field(text, u16::from(utc));
    field(text, settings.interval.milliseconds);
    field(text, u16::from(settings.systems.mask));
    text.push(b'\n');
}

// The line of names, and the line of values.
fn sheet(settings: &Settings) -> Text<ROOM>
    ensures text { result ≡ sheet_text (configuration (values settings.now)) }
    ensures len { length result ≤ 96 }
{
    let mut text = Text::new();
    text.append(b"baud,gga,gll,rmc,zda,utc,interval,systems\n");
    values_line(&mut text, settings);
    text
}

// Writes the sheet to the start of `out` and gives its length; an output below 96 bytes is refused.
pub fn write_sheet(settings: &Settings, out: &mut [u8]) -> Result<usize, Refusal>
    ensures { (result, out.new) ≡ sheet_written (configuration (values settings.now)) out.old }
{
    if out.len() < ROOM {
        return Err(Refusal::OutputTooShort);
    }
    let text = sheet(settings);
    let bytes = text.as_bytes();
    out[..bytes.len()].copy_from_slice(bytes);
    Ok(bytes.len())
}
