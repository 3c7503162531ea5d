// Settings at the factory, set one by one, and counted at a fix.
ghost use Rattle.std.specs.Prelude.{◌≡◌, ℕ, length, replicate, ◌≢◌, slice_index, slice_set};
ghost use Rattle.settings.specs.Names.{place};
ghost use Rattle.settings.specs.Values.{values, counts, rates_in, counts_in, factory};
ghost use Rattle.settings.specs.Entries.{next_count, is_due};
ghost use Rattle.settings.specs.Changes.{with_setting, counts_set, counts_fixed};

use crate::names::Message;
use crate::values::{Baud, Entry, Group, Interval, Messages, Pulse, Setting, Settings, Systems};

impl Entry {
    // An entry whose rate has just come into force.
    pub fn new(rate: u8) -> Entry
        ensures rate { result.rate ≡ rate }
        ensures count { result.count ≡ 0 }
    {
        Entry { rate, count: 0 }
    }

    // Counts a fix, and says whether the message goes out at it.
    pub fn advance(&mut self) -> bool
        ensures rate { self.new.rate ≡ self.old.rate }
        ensures count { self.new.count ≡ next_count self.old.rate self.old.count }
        ensures due { result ≡ is_due self.old.rate self.old.count }
    {
        if self.rate == 0 {
            return false;
        }
        self.count = (self.count + 1) % self.rate;
        self.count == 0
    }
}

impl Messages {
    // A table whose five rates have just come into force.
    pub fn new(rates: [u8; 5]) -> Messages
        ensures rates { rates_in result.entries ≡ rates }
        ensures counts { counts_in result.entries ≡ replicate 5 0 }
        ensures size { length result.entries ≡ 5 }
    {
        Messages {
            entries: rates.map(Entry::new),
        }
    }

    // The five rates.
    pub fn rates(&self) -> [u8; 5]
        ensures { result ≡ rates_in self.now.entries }
    {
        self.entries.map(|entry| entry.rate)
    }

    // Brings the rate of one message into force.
    fn set_rate(&mut self, message: Message, rate: u8)
        ensures rates { rates_in self.new.entries ≡ slice_set (rates_in self.old.entries) (place message) rate }
        ensures counts { counts_in self.new.entries ≡ slice_set (counts_in self.old.entries) (place message) 0 }
        ensures size { length self.new.entries ≡ length self.old.entries }
    {
        self.entries[message.place()] = Entry::new(rate);
    }

    // Counts a fix for one message, and says whether the message goes out at it.
    fn advance(&mut self, message: Message) -> bool
        ensures rates { rates_in self.new.entries ≡ rates_in self.old.entries }
        ensures counts { counts_in self.new.entries ≡ counts_fixed (rates_in self.old.entries) (counts_in self.old.entries) (place message) }
        ensures size { length self.new.entries ≡ length self.old.entries }
        ensures due { result ≡ is_due (slice_index (rates_in self.old.entries) (place message)) (slice_index (counts_in self.old.entries) (place message)) }
    {
        self.entries[message.place()].advance()
    }
}

impl Settings {
    // The settings as they leave the factory.
    pub fn factory() -> Settings
        ensures values { values result ≡ factory }
        ensures counts { counts result ≡ replicate 5 0 }
    {
        Settings {
            baud: Baud { code: 1 },
            messages: Messages::new([1, 0, 1, 1, 0]),
            interval: Interval { milliseconds: 1000 },
            systems: Systems { mask: 3 },
            pulse: Pulse {
                interval: 1_000_000,
                width: 100_000,
                enable: 1,
                polarity: 0,
                reference: 0,
                source: 0,
                delay: [0; 4],
            },
            group: Group { bytes: [0; 56] },
        }
    }

    // Brings one setting into force.
    pub fn set(&mut self, setting: Setting)
        ensures values { values self.new ≡ with_setting (values self.old) setting }
        ensures counts { counts self.new ≡ counts_set (counts self.old) setting }
    {
        match setting {
            Setting::Baud(baud) => self.baud = baud,
            Setting::Rate(message, rate) => self.messages.set_rate(message, rate),
            Setting::Interval(interval) => self.interval = interval,
            Setting::Systems(systems) => self.systems = systems,
            Setting::Pulse(pulse) => self.pulse = pulse,
            Setting::Group(group) => self.group = group,
        }
    }

    // Counts a fix for one message, and says whether the message goes out at it.
    pub fn advance(&mut self, message: Message) -> bool
        ensures values { values self.new ≡ values self.old }
        ensures counts { counts self.new ≡ counts_fixed (values self.old).rates (counts self.old) (place message) }
        ensures due { result ≡ is_due (slice_index (values self.old).rates (place message)) (slice_index (counts self.old) (place message)) }
    {
        self.messages.advance(message)
    }
}
