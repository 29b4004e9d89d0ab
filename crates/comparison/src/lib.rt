// The five comparisons of a count with a constant, and their codes.
#![tactic(auto)]

ghost use Rattle.std.specs.Prelude.{◌≡◌};
ghost use Rattle.comparison.specs.Comparison.{met};
ghost use Rattle.comparison.specs.Order.{Order};
ghost use Rattle.comparison.specs.Decoding.{Decodes, IsCodeOf};

#[derive(Clone, Copy, Debug, PartialEq, Eq)]
pub enum Comparison {
    AtMost,
    Below,
    AtLeast,
    Above,
    Equal,
}

// A code that no comparison has.
#[derive(Clone, Copy, Debug, PartialEq, Eq)]
pub struct UnknownCode(pub u8);

impl TryFrom<u8> for Comparison {
    type Error = UnknownCode;

    ghost try_from_gives = { Decodes };

    #[tactic(auto, using(crate::proofs::Comparisons::comparison_past), unfolding(crate::specs::Comparison::comparison_of))]
    fn try_from(code: u8) -> Result<Self, UnknownCode> {
        match code {
            0 => Ok(Comparison::AtMost),
            1 => Ok(Comparison::Below),
            2 => Ok(Comparison::AtLeast),
            3 => Ok(Comparison::Above),
            4 => Ok(Comparison::Equal),
            5..=255 => Err(UnknownCode(code)),
        }
    }
}

impl From<Comparison> for u8 {
    ghost from_gives = { IsCodeOf };

    #[tactic(auto, unfolding(crate::specs::Comparison::code_of))]
    fn from(c: Comparison) -> u8 {
        match c {
            Comparison::AtMost => 0,
            Comparison::Below => 1,
            Comparison::AtLeast => 2,
            Comparison::Above => 3,
            Comparison::Equal => 4,
        }
    }
}

// A row for each code; in it what the comparison says of a count below, at and above the constant.
const HOLDS: [[bool; 3]; 5] = [
    [true, true, false],
    [true, false, false],
    [false, true, true],
    [false, false, true],
    [false, true, false],
];

fn order_of(count: u64, constant: u64) -> usize
    ensures { Order count constant result }
{
    if count < constant {
        0
    } else if count <= constant {
        1
    } else {
        2
    }
}

#[tactic(auto, using(crate::proofs::Comparisons::code_below, crate::proofs::Comparisons::order_below, crate::proofs::Comparisons::table_met))]
pub fn holds(c: Comparison, count: u64, constant: u64) -> bool
    ensures { result ≡ met c count constant }
{
    let code = u8::from(c);
    let order = order_of(count, constant);
    HOLDS[code as usize][order]
}
