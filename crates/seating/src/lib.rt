// Who meets in which game: every two entrants once.
#![tactic(auto)]

ghost use Rattle.std.specs.Prelude.{◌≡◌, ◌<◌, ◌≤◌};
ghost use Rattle.seating.specs.Pairs.{games_of, row_start, low_of, seated, seats_if, number_if, SeatingRight};

use side::PerSide;

// How many games some entrants play.
#[tactic(auto, using(crate::proofs::Computed::seating_right))]
pub fn games(entrants: u8) -> usize
    ensures value { result ≡ games_of entrants }
    ensures right { SeatingRight }
{
    let entrants = usize::from(entrants);
    entrants * entrants.saturating_sub(1) / 2
}

// The first game of an entrant with those of higher number.
fn first_game(entrants: u8, low: u8) -> usize
    requires { low ≤ entrants }
    ensures { result ≡ row_start entrants low }
{
    let low = usize::from(low);
    low * (2 * usize::from(entrants) - low).saturating_sub(1) / 2
}

fn seated(low: u8, high: u8) -> PerSide<u8>
    ensures { result ≡ seated low high }
{
    // one of them is odd where their sum is
    if low % 2 != high % 2 {
        PerSide {
            first: low,
            second: high,
        }
    } else {
        PerSide {
            first: high,
            second: low,
        }
    }
}

// The lower entrant of a game: so many entrants after the first begin their games at or before it.
fn lower(entrants: u8, game: usize) -> usize
    requires { 2 ≤ entrants }
    ensures { result ≡ low_of entrants game }
{
    (1..entrants - 1)
        .filter(|later| first_game(entrants, *later) <= game)
        .count()
}

// Both seats of a game: the lower entrant is first where the sum of both is odd. None where there is no such game.
#[tactic(auto, using(crate::proofs::Computed::found_high))]
pub fn seats(entrants: u8, game: usize) -> Option<PerSide<u8>>
    ensures { result ≡ seats_if entrants game }
{
    if entrants > 16 || game >= games(entrants) {
        return None;
    }
    // `as`: no `From` makes a `usize` a `u8`, and both are below sixteen
    let low = lower(entrants, game) as u8;
    let high = low + 1 + (game - first_game(entrants, low)) as u8;
    Some(seated(low, high))
}

// The game of two entrants; none where they are not two of the event's.
pub fn game_of(entrants: u8, low: u8, high: u8) -> Option<usize>
    ensures { result ≡ number_if entrants low high }
{
    if entrants > 16 || low >= high || high >= entrants {
        return None;
    }
    Some(first_game(entrants, low) + usize::from(high - low - 1))
}
