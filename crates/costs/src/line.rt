// A line of the cost sheet: the rate of a hop, or "no traffic".
ghost use Rattle.std.specs.Prelude.{◌≡◌, ◌≤◌};
ghost use Rattle.octets.specs.Words.{most};
ghost use Rattle.costs.specs.Lines.{rate_of, words_line, line_of, values_of};

use ground::refusal::Refusal;
use octets::words::Words;
use prefix::LAST_HOP;

// The paper names its three cases, so that it is no Result of an Option.
#[derive(Clone, Copy)]
pub enum Line {
    // Cents for an octet.
    Rate(f64),
    NoTraffic,
    // The number of a refusal.
    Refused(u32),
}

// A line in numbers, as C gets it, which has no enum with values: traffic is 1 where the rate holds; 0 with code 0 is "no traffic".
#[repr(C)]
#[derive(Clone, Copy)]
pub struct Values {
    pub code: u32,
    pub traffic: u32,
    pub rate: f64,
}

// Both numbers are at most 2^53, so their conversions lose nothing: one division, one rounding.
pub(crate) fn rate(octets: u64, cents: u64) -> f64
    requires { (octets ≤ most) × (cents ≤ most) }
    ensures { result ≡ rate_of octets cents }
{
    cents as f64 / octets as f64
}

// The line of a hop's two words.
#[tactic(auto, unfolding(crate::specs::Lines::words_line))]
fn line_of(octets: u64, cents: u64) -> Line
    ensures { result ≡ words_line octets cents }
{
    if Words::MOST < octets {
        return Line::Refused(Refusal::TooManyOctets.into());
    }
    if Words::MOST < cents {
        return Line::Refused(Refusal::TooManyCents.into());
    }
    if octets == 0 {
        return Line::NoTraffic;
    }
    Line::Rate(rate(octets, cents))
}

// The line of a hop, or refusal 1, 2, 30 or 31.
#[tactic(auto, unfolding(crate::specs::Lines::line_of, crate::specs::Lines::line_code, crate::specs::Lines::words_line))]
pub fn cost_line(octets: &[u64], cents: &[u64], hop: u32) -> Line
    ensures { result ≡ line_of octets.now cents.now hop }
{
    if octets.len() != Words::COUNT || cents.len() != Words::COUNT {
        return Line::Refused(Refusal::WrongSizes.into());
    }
    if !(1..=LAST_HOP).contains(&hop) {
        return Line::Refused(Refusal::WrongNumbers.into());
    }
    line_of(octets[hop as usize], cents[hop as usize])
}

// The numbers that each case of a line stands for.
impl From<Line> for Values {
    ghost from_gives = { λ line values. values ≡ values_of line };

    fn from(line: Line) -> Values {
        let (code, traffic, rate) = match line {
            Line::Rate(rate) => (0, 1, rate),
            Line::NoTraffic => (0, 0, 0.0),
            Line::Refused(code) => (code, 0, 0.0),
        };
        Values {
            code,
            traffic,
            rate,
        }
    }
}
