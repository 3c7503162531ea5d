// Why the program prints no image.
use listing::ListingError;
use std::{fmt, io};

#[derive(Debug, Drop)]
pub enum Problem {
    Usage,
    BatterySize(usize),
    ListingError(ListingError),
    Unread(io::Error),
}

impl fmt::Display for Problem {
    fn fmt<W: fmt::Write>(&self, f: &mut fmt::Formatter<W>) -> fmt::Result {
        match self {
            Problem::Usage => write!(
                f,
                "say 'kept battery [FILE]', 'kept journal [FILE]' or 'kept --help'"
            ),
            Problem::BatterySize(size) => write!(
                f,
                "a battery image has 320 bytes, and this one has {size}"
            ),
            Problem::ListingError(ListingError::NoMemory) => write!(
                f,
                "there is not enough memory"
            ),
            Problem::ListingError(ListingError::Refused(refusal)) => {
                let number = refusal.number();
                write!(f, "the memory refuses with {number}")
            }
            Problem::Unread(error) => write!(f, "the image cannot be read: {error}"),
        }
    }
}

impl From<io::Error> for Problem {
    fn from(error: io::Error) -> Problem {
        Problem::Unread(error)
    }
}

impl From<ListingError> for Problem {
    fn from(unlisted: ListingError) -> Problem {
        Problem::ListingError(unlisted)
    }
}
