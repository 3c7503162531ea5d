// What the command line asks for.
ghost use Rattle.std.specs.Result.{result_ok};
ghost use Rattle.kept.specs.Makes.{Spelled};

use crate::problem::Problem;
use std::str::FromStr;

// A make of settings memory.
#[derive(Clone, Copy, PartialEq, Eq, Debug)]
pub enum Make {
    Battery,
    Journal,
}

// The make that a word names.
impl FromStr for Make {
    type Err = Problem;

    ghost from_str_gives = { λ word r. Spelled word (result_ok r) };

    fn from_str(word: &str) -> Result<Make, Problem> {
        match word {
            "battery" => Ok(Make::Battery),
            "journal" => Ok(Make::Journal),
            _ => Err(Problem::Usage),
        }
    }
}
