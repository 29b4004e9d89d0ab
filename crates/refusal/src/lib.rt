// A refusal as every call gives it: its reason, which has the document's number, and its place.
#![tactic(auto)]

ghost use Rattle.std.specs.Prelude.{◌≡◌};
ghost use Rattle.refusal.specs.Reason.{number_of};

// The place of a refusal that has no other.
pub const NOWHERE: u64 = 65535;

// Why something is refused: one for each number of the document.
#[derive(Clone, Copy, Debug, PartialEq, Eq)]
pub enum Reason {
    WrongLength,
    WrongVersion,
    CutOff,
    TooMany,
    NoSuchLocation,
    NoSuchTimer,
    NotRising,
    NoSuchComparison,
    Unreached,
    Unstarted,
    LimitTooLarge,
    WrongCounts,
    UnequalLists,
    NoSuchTransition,
    TimeTooLarge,
    InputTooLong,
    ConstantTooLarge,
    NotForCounter,
    BoardTooSmall,
    NoRoom,
    WrongSource,
    TimeBefore,
    TestNotMet,
    WrongHeads,
    NoFreeHead,
    WrongState,
}

impl Reason {
    // The number under which the callers know the reason.
    #[tactic(auto, unfolding(crate::specs::Reason::number_of))]
    pub fn number(self) -> u16
        ensures { result ≡ number_of self }
    {
        match self {
            Reason::WrongLength => 1,
            Reason::WrongVersion => 2,
            Reason::CutOff => 3,
            Reason::TooMany => 4,
            Reason::NoSuchLocation => 5,
            Reason::NoSuchTimer => 6,
            Reason::NotRising => 7,
            Reason::NoSuchComparison => 8,
            Reason::Unreached => 9,
            Reason::Unstarted => 10,
            Reason::LimitTooLarge => 11,
            Reason::WrongCounts => 12,
            Reason::UnequalLists => 13,
            Reason::NoSuchTransition => 14,
            Reason::TimeTooLarge => 15,
            Reason::InputTooLong => 16,
            Reason::ConstantTooLarge => 17,
            Reason::NotForCounter => 18,
            Reason::BoardTooSmall => 20,
            Reason::NoRoom => 21,
            Reason::WrongSource => 22,
            Reason::TimeBefore => 23,
            Reason::TestNotMet => 24,
            Reason::WrongHeads => 25,
            Reason::NoFreeHead => 26,
            Reason::WrongState => 32,
        }
    }
}

// A place is 64 bits wide: a step's number is never cut.
#[derive(Clone, Copy, Debug, PartialEq, Eq)]
pub struct Refusal {
    pub reason: Reason,
    pub place: u64,
}

// The refusals that have no other place, by what is wrong.

// Fewer than 5 bytes, or a length that is not that of what follows.
pub const WRONG_LENGTH: Refusal = Refusal {
    reason: Reason::WrongLength,
    place: NOWHERE,
};

// A version other than 1 to 3.
pub const WRONG_VERSION: Refusal = Refusal {
    reason: Reason::WrongVersion,
    place: NOWHERE,
};

// The file ends inside a field, bytes are left over, a record's length is wrong, or a list ends before the entry that is due.
pub const CUT_OFF: Refusal = Refusal {
    reason: Reason::CutOff,
    place: NOWHERE,
};

// No location, or too many of something, before the first transition.
pub const TOO_MANY: Refusal = Refusal {
    reason: Reason::TooMany,
    place: NOWHERE,
};

// A location number in the header that is not below the number of locations.
pub const NO_SUCH_LOCATION: Refusal = Refusal {
    reason: Reason::NoSuchLocation,
    place: NOWHERE,
};

// Accepting locations that are not strictly rising.
pub const NOT_RISING: Refusal = Refusal {
    reason: Reason::NotRising,
    place: NOWHERE,
};

// A board of more than 64 timers.
pub const LIMIT_TOO_LARGE: Refusal = Refusal {
    reason: Reason::LimitTooLarge,
    place: NOWHERE,
};

// Starting counts that are not one for each timer.
pub const WRONG_COUNTS: Refusal = Refusal {
    reason: Reason::WrongCounts,
    place: NOWHERE,
};

// Step lists of different lengths.
pub const UNEQUAL_LISTS: Refusal = Refusal {
    reason: Reason::UnequalLists,
    place: NOWHERE,
};

// An input of the program over 65,536 bytes.
pub const INPUT_TOO_LONG: Refusal = Refusal {
    reason: Reason::InputTooLong,
    place: NOWHERE,
};

// A constant over 65,535 in a chart that is to be written as version 1.
pub const CONSTANT_TOO_LARGE: Refusal = Refusal {
    reason: Reason::ConstantTooLarge,
    place: NOWHERE,
};

// A constant over 65,535 in a chart that the counter board is to play.
pub const NOT_FOR_COUNTER: Refusal = Refusal {
    reason: Reason::NotForCounter,
    place: NOWHERE,
};

// All numbers of the board are held by earlier families that the next one meets.
pub const BOARD_TOO_SMALL: Refusal = Refusal {
    reason: Reason::BoardTooSmall,
    place: NOWHERE,
};

// A lent buffer or list that is too short for the result.
pub const NO_ROOM: Refusal = Refusal {
    reason: Reason::NoRoom,
    place: NOWHERE,
};

// No head or more than eight, blocks that together exceed the board, or one that is shorter than its chart's timers.
pub const WRONG_HEADS: Refusal = Refusal {
    reason: Reason::WrongHeads,
    place: NOWHERE,
};

// An event for a head that there is not, or at which one waits.
pub const NO_FREE_HEAD: Refusal = Refusal {
    reason: Reason::NoFreeHead,
    place: NOWHERE,
};

// A controller's state that its calls cannot go on from.
pub const WRONG_STATE: Refusal = Refusal {
    reason: Reason::WrongState,
    place: NOWHERE,
};

// An event, not a step, whose time is over the largest.
pub const EVENT_TOO_LATE: Refusal = Refusal {
    reason: Reason::TimeTooLarge,
    place: NOWHERE,
};

// An event, not a step, whose time is before its head's.
pub const EVENT_TOO_EARLY: Refusal = Refusal {
    reason: Reason::TimeBefore,
    place: NOWHERE,
};
