// The kept string of each setting, and reading it back.
ghost use Rattle.std.specs.Prelude.{◌≡◌, ◌+◌, ◌≤◌, if◌then◌else◌, Some, None, slice_index};
ghost use Rattle.std.specs.Option.{option_map};
ghost use Rattle.settings.specs.Bytes.{five_of};
ghost use Rattle.settings.specs.Ranges.{baud_in_range, interval_in_range, systems_in_range};
ghost use Rattle.settings.specs.Values.{pulse_values, navigation_values};
ghost use Rattle.settings.specs.Strings.{navigation_at, pulse_string, pulse_at, is_kept};
ghost use Rattle.settings.specs.declared.names.Section.TheVariants.{Port, Messages, Navigation as NavigationSection, Pulse as PulseSection, Group as GroupSection};

use crate::values::{Baud, Group, Interval, Navigation, Pulse, Systems};

// Baud, Interval and Systems stay three, with a `new` like that of NonZero: one type with const bounds would name neither the setting nor its unit.
impl Baud {
    pub fn new(code: u8) -> Option<Baud>
        ensures { option_map (λ b. b.code) result ≡ (if baud_in_range code then Some code else None) }
    {
        if code <= 5 { Some(Baud { code }) } else { None }
    }
}

impl Interval {
    pub fn new(milliseconds: u16) -> Option<Interval>
        ensures { option_map (λ i. i.milliseconds) result ≡ (if interval_in_range milliseconds then Some milliseconds else None) }
    {
        if milliseconds >= 100 && milliseconds <= 10000 {
            Some(Interval { milliseconds })
        } else {
            None
        }
    }
}

impl Systems {
    pub fn new(mask: u8) -> Option<Systems>
        ensures { option_map (λ s. s.mask) result ≡ (if systems_in_range mask then Some mask else None) }
    {
        if mask >= 1 && mask <= 7 {
            Some(Systems { mask })
        } else {
            None
        }
    }
}

impl Pulse {
    // The sixteen bytes of the setting; a From for an array would be no plainer: it would not say that they are the kept string.
    pub fn string(&self) -> [u8; 16]
        ensures { result ≡ pulse_string (pulse_values self.now) }
    {
        let [a, b, c, d] = self.interval.to_le_bytes();
        let [e, f, g, h] = self.width.to_le_bytes();
        let [w, x, y, z] = self.delay;
        [
            a,
            b,
            c,
            d,
            e,
            f,
            g,
            h,
            self.enable,
            self.polarity,
            self.reference,
            self.source,
            w,
            x,
            y,
            z,
        ]
    }

    // The setting that sixteen bytes in range name; a TryFrom would be no plainer, since each caller would drop its error.
    pub fn read(string: &[u8]) -> Option<Pulse>
        ensures { option_map pulse_values result ≡ (if is_kept PulseSection string.now then Some (pulse_at string.now) else None) }
    {
        let [
            a,
            b,
            c,
            d,
            e,
            f,
            g,
            h,
            enable,
            polarity,
            reference,
            source,
            w,
            x,
            y,
            z,
        ] = *string
        else {
            return None;
        };
        let interval = u32::from_le_bytes([a, b, c, d]);
        let width = u32::from_le_bytes([e, f, g, h]);
        if width >= interval || enable > 3 || polarity > 1 || reference > 1 {
            return None;
        }
        Some(Pulse {
            interval,
            width,
            enable,
            polarity,
            reference,
            source,
            delay: [w, x, y, z],
        })
    }
}

impl Group {
    // The setting that the 56 bytes name; no TryFrom, as for the pulse.
    pub fn read(string: &[u8]) -> Option<Group>
        ensures { option_map (λ g. g.bytes) result ≡ (if is_kept GroupSection string.now then Some string.now else None) }
    {
        let bytes: [u8; 56] = string.try_into().ok()?;
        Some(Group { bytes })
    }
}

// The baud code that the port's string names.
pub(crate) fn read_port(string: &[u8]) -> Option<Baud>
    ensures { option_map (λ b. b.code) result ≡ (if is_kept Port string.now then Some (slice_index string.now 0) else None) }
{
    match string {
        [code] => Baud::new(*code),
        _ => None,
    }
}

// The interval and the systems that the navigation string names, if both are in range.
pub(crate) fn read_navigation(string: &[u8]) -> Option<Navigation>
    ensures { option_map navigation_values result ≡ (if is_kept NavigationSection string.now then Some (navigation_at string.now) else None) }
{
    let [low, high, mask] = string else {
        return None;
    };
    let interval = Interval::new(u16::from_le_bytes([*low, *high]))?;
    let systems = Systems::new(*mask)?;
    Some(Navigation { interval, systems })
}

// The five rates that the messages' string names.
pub(crate) fn read_messages(string: &[u8]) -> Option<[u8; 5]>
    ensures { result ≡ (if is_kept Messages string.now then Some (five_of string.now) else None) }
{
    string.try_into().ok()
}
