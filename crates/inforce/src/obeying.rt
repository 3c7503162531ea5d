// What commands, starts and power do to the settings in force and to their memory.
ghost use Rattle.std.specs.Prelude.{◌≡◌, ◌*◌, ◌≤◌, true, List, [], ◌∷◌, map, is_ok, if◌then◌else◌, Ok};
ghost use Rattle.commands.specs.declared.command.Outcome.TheVariants.{Done, TurnedDown};
ghost use Rattle.commands.specs.Commands.{command as asking, starts, optional_rate, four_rates};
ghost use Rattle.commands.specs.Seen.{change_of, command_of, seen_request};
ghost use Rattle.rule.specs.Events.{Event, built, powered, factoried, loaded, set, how_many};
ghost use Rattle.rule.specs.Words.{State, Follows, found};
ghost use Rattle.rule.specs.Judging.{affords, outcome, heard};
ghost use Rattle.rule.specs.Steps.{stepped, stepped_all, events_of};
ghost use Rattle.inforce.specs.Has.{state_of};
ghost use Rattle.inforce.specs.Sections.{writing_event};

use crate::parts::{InForce, Writing};
use crate::sections::{how_many, load_one, write_one};
use commands::{Command, Outcome, Rates, Sections, Start, Unheeded};
use memory::{Refusal, SettingsMemory};
use settings::{Message, Section, Setting, Settings};

// The memory's `Result` goes through all of these to the card's calls, by a rule of the project, though no refusal can come.
impl<M: SettingsMemory> InForce<M> {
    // Brings sections into force, as they are kept or from the factory.
    fn load(&mut self, sections: Sections) -> Result<(), Refusal>
        ensures done { result ≡ Ok tt }
        ensures after { state_of M.meaning self.new ≡ stepped (state_of M.meaning self.old) (loaded sections) }
    {
        for section in Section::ALL {
            load_one(&self.memory, &mut self.settings, sections, section)?;
        }
        Ok(())
    }

    // Whether so many sections can be written.
    fn affords(&self, sections: usize) -> bool
        requires { sections ≤ 5 }
        ensures { result ≡ affords (state_of M.meaning self.now) [] sections }
    {
        sections * self.memory.price() <= self.memory.left()
    }

    // Keeps or erases the strings of sections that the memory has writes left for.
    fn write(&mut self, sections: Sections, writing: Writing) -> Result<(), Refusal>
        requires { how_many sections * (M.meaning self.old.memory).price ≤ (M.meaning self.old.memory).left }
        ensures done { result ≡ Ok tt }
        ensures after { state_of M.meaning self.new ≡ stepped (state_of M.meaning self.old) (writing_event writing sections) }
    {
        for section in Section::ALL {
            write_one(&mut self.memory, &self.settings, sections, section, writing)?;
        }
        Ok(())
    }
}

impl<M: SettingsMemory> InForce<M> {
    // Every setting takes its kept value, or the factory value where none is kept.
    pub fn build(memory: M) -> InForce<M>
        ensures { Follows (found (M.meaning memory)) (built ∷ []) (state_of M.meaning result) }
    {
        let mut made = InForce {
            memory,
            settings: Settings::factory(),
        };
        let _ = made.load(Sections::all());
        made
    }

    // The same for settings that are in force already.
    pub fn power(&mut self)
        ensures { (b : State) (h : List Event) → Follows b h (state_of M.meaning self.old) → Follows b (powered ∷ h) (state_of M.meaning self.new) }
    {
        let _ = self.load(Sections::all());
    }

    // Brings one setting into force.
    fn set(&mut self, setting: Setting)
        ensures { state_of M.meaning self.new ≡ stepped (state_of M.meaning self.old) (set (change_of setting)) }
    {
        self.settings.set(setting);
    }

    // Brings a rate into force, if there is one.
    fn set_rate(&mut self, message: Message, rate: Option<u8>)
        ensures { state_of M.meaning self.new ≡ stepped_all (state_of M.meaning self.old) (map set (optional_rate message rate)) }
    {
        if let Some(n) = rate {
            self.set(Setting::Rate(message, n));
        }
    }

    // Four calls: a loop would first put the messages and their rates into a list of pairs.
    fn set_rates(&mut self, rates: Rates)
        ensures { state_of M.meaning self.new ≡ stepped_all (state_of M.meaning self.old) (map set (four_rates rates.gga rates.gll rates.rmc rates.zda)) }
    {
        self.set_rate(Message::Zda, rates.zda);
        self.set_rate(Message::Rmc, rates.rmc);
        self.set_rate(Message::Gll, rates.gll);
        self.set_rate(Message::Gga, rates.gga);
    }
}

impl<M: SettingsMemory> InForce<M> {
    // Writes sections if the writes left suffice for all of them.
    fn write_all(&mut self, sections: Sections, writing: Writing) -> Result<Outcome, Refusal>
        ensures answer { result ≡ Ok (if affords (state_of M.meaning self.old) [] (how_many sections) then Done else TurnedDown) }
        ensures after { state_of M.meaning self.new ≡ (if affords (state_of M.meaning self.old) [] (how_many sections) then stepped (state_of M.meaning self.old) (writing_event writing sections) else state_of M.meaning self.old) }
    {
        if !self.affords(how_many(sections)) {
            return Ok(Outcome::TurnedDown);
        }
        self.write(sections, writing)?;
        Ok(Outcome::Done)
    }

    // Erases all sections and brings the factory settings into force, if the writes left suffice.
    // Not by `write_all`: its outcome would have to be asked whether the factory settings are to follow.
    fn start_from_factory(&mut self) -> Result<Outcome, Refusal>
        ensures answer { result ≡ Ok (if affords (state_of M.meaning self.old) [] 5 then Done else TurnedDown) }
        ensures after { state_of M.meaning self.new ≡ (if affords (state_of M.meaning self.old) [] 5 then stepped (state_of M.meaning self.old) factoried else state_of M.meaning self.old) }
    {
        if !self.affords(5) {
            return Ok(Outcome::TurnedDown);
        }
        self.write(Sections::all(), Writing::Erase)?;
        self.settings = Settings::factory();
        Ok(Outcome::Done)
    }

    fn start(&mut self, start: Start) -> Result<Outcome, Refusal>
        ensures answer { result ≡ Ok (outcome (state_of M.meaning self.old) [] (asking (starts start))) }
        ensures after { state_of M.meaning self.new ≡ stepped_all (state_of M.meaning self.old) (events_of (state_of M.meaning self.old) (asking (starts start))) }
    {
        match start {
            Start::Hot | Start::Warm | Start::Cold => {
                self.load(Sections::all())?;
                Ok(Outcome::Done)
            }
            Start::Factory => self.start_from_factory(),
        }
    }

    fn act(&mut self, command: Command) -> Result<Outcome, Refusal>
        ensures answer { result ≡ Ok (outcome (state_of M.meaning self.old) [] (asking (command_of command))) }
        ensures after { state_of M.meaning self.new ≡ stepped_all (state_of M.meaning self.old) (events_of (state_of M.meaning self.old) (asking (command_of command))) }
    {
        match command {
            Command::Set(setting) => self.set(setting),
            Command::SetRates(rates) => self.set_rates(rates),
            Command::Save(sections) => return self.write_all(sections, Writing::Keep),
            Command::Clear(sections) => return self.write_all(sections, Writing::Erase),
            Command::Load(sections) => self.load(sections)?,
            Command::Start(start) => return self.start(start),
            Command::Query(query) => return Ok(Outcome::Told(query)),
        }
        Ok(Outcome::Done)
    }

    // What a frame or sentence asks: one that is passed over or turned down changes nothing.
    pub fn obey(&mut self, request: Result<Command, Unheeded>) -> Result<Outcome, Refusal>
        ensures done { is_ok result ≡ true }
        ensures obeyed { (b : State) (h : List Event) → Follows b h (state_of M.meaning self.old) → (result ≡ Ok (outcome b h (seen_request request))) × Follows b (heard b h (seen_request request)) (state_of M.meaning self.new) }
    {
        match request {
            Ok(command) => self.act(command),
            Err(Unheeded::PassedOver) => Ok(Outcome::PassedOver),
            Err(Unheeded::Wrong) => Ok(Outcome::TurnedDown),
        }
    }
}
