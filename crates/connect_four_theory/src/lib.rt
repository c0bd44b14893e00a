// What Connect Four is, by its positions, and what is true of it in other words.
#![tactic(auto)]

ghost use Rattle.connect_four_theory.specs.Facts.{PlacedRight, LandingRight, StonesRight, SettledRight, MadeRight, FullRight, StatusRight, LegalRight, ChanceRight, ColumnSample};

// What a code does: a stone falls to the lowest free cell of its column, and nothing else changes.
pub fn codes_are_right()
    ensures legal { LegalRight }
    ensures placed { PlacedRight }
    ensures landing { LandingRight }
    ensures settled { SettledRight }
    ensures made { MadeRight }
{}

// What a word of stones says of the board.
pub fn stones_are_right()
    ensures stones { StonesRight }
    ensures full { FullRight }
{}

// Who has won, when the game is drawn, and who can win no more.
pub fn verdicts_are_right()
    ensures status { StatusRight }
    ensures chance { ChanceRight }
    ensures sample { ColumnSample }
{}
