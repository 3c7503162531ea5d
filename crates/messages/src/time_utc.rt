// The frame NAV-TIMEUTC.
ghost use Rattle.std.specs.Prelude.{◌≡◌};
ghost use Rattle.wire.specs.Frames.{frame};
ghost use Rattle.wire.specs.Writes.{fitted};
ghost use Rattle.bodies.specs.Laws.{GoodFrame, Tells, time_utc_numbers};
ghost use Rattle.bodies.specs.Payloads.{source, time_utc_payload};

use fix::CheckedFix;
use settings::Systems;
use wire::{Frame, Refusal};

// The time's source: 0 GPS, 1 BeiDou, 2 GLONASS.
fn source(systems: Systems) -> u8
    ensures { result ≡ source systems.mask }
{
    match systems.mask {
        4 => 2,
        n if n % 2 == 1 => 0,
        _ => 1,
    }
}

// Its 24 bytes by name: to copy its parts to their places would be no plainer, and hide which stands where.
fn payload(fix: &CheckedFix, systems: Systems) -> [u8; 24]
    ensures { result ≡ time_utc_payload systems.mask fix.now }
{
    let [run0, run1, run2, run3] = fix.run_time.to_le_bytes();
    let [accuracy0, accuracy1, accuracy2, accuracy3] = fix.time_accuracy.to_le_bytes();
    let [error0, error1, error2, error3] = fix.ms_error.to_le_bytes();
    let [ms0, ms1] = fix.time.ms.to_le_bytes();
    let [year0, year1] = fix.date.year.to_le_bytes();
    let (valid, date) = match fix.position {
        Some(_) => (7, 3),
        None => (0, 0),
    };
    [
        run0,
        run1,
        run2,
        run3,
        accuracy0,
        accuracy1,
        accuracy2,
        accuracy3,
        error0,
        error1,
        error2,
        error3,
        ms0,
        ms1,
        year0,
        year1,
        fix.date.month,
        fix.date.day,
        fix.time.hour,
        fix.time.minute,
        fix.time.second,
        valid,
        source(systems),
        date,
    ]
}

// Writes the frame to the start of the caller's `out` and gives its length; an output that is too short is refused.
pub fn write_time_utc(fix: &CheckedFix, systems: Systems, out: &mut [u8]) -> Result<usize, Refusal>
    ensures bytes { (result, out.new) ≡ fitted (frame 0x01 0x10 (time_utc_payload systems.mask fix.now)) out.old }
    ensures good { GoodFrame 0x01 0x10 (time_utc_payload systems.mask fix.now) }
    ensures tells { Tells (λ s f. frame 0x01 0x10 (time_utc_payload s f)) time_utc_numbers systems.mask fix.now }
{
    let frame = Frame {
        class: 0x01,
        id: 0x10,
        payload: &payload(fix, systems),
    };
    frame.write(out)
}
