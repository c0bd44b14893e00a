// Tests of Gomoku.
#![tactic(auto)]

#[cfg(test)]
mod tests {
    use gomoku::{Gomoku, Point};
    use rules::{Rules, Status};
    use side::Side;
    use std::process::Abort;

    // points that no line of these tests touches, no two of them neighbours
    const ELSEWHERE: [u16; 10] = [17, 47, 77, 107, 137, 20, 50, 80, 110, 140];

    fn made(rt: &impl Abort, game: &mut Gomoku, code: u16) {
        assert!(rt; game.make(code));
    }

    fn refused(rt: &impl Abort, game: &mut Gomoku, code: u16) {
        assert!(rt; !game.make(code));
    }

    fn stands(rt: &impl Abort, game: &Gomoku, status: Status, stones: u32) {
        assert_eq!(rt; game.status(), status);
        assert_eq!(rt; game.stones(), stones);
    }

    fn shows(rt: &impl Abort, game: &Gomoku, column: u8, row: u8, point: Point) {
        assert_eq!(rt; game.point(column, row), Some(point));
    }

    fn lies_outside(rt: &impl Abort, game: &Gomoku, column: u8, row: u8) {
        assert_eq!(rt; game.point(column, row), None);
    }

    fn chances(rt: &impl Abort, game: &Gomoku, first: bool, second: bool) {
        assert_eq!(rt; game.chance(Side::First), first);
        assert_eq!(rt; game.chance(Side::Second), second);
    }

    // Makes the codes of the side to move, and the other side's in between elsewhere.
    fn play(rt: &impl Abort, game: &mut Gomoku, codes: &[u16]) {
        for (code, other) in codes.iter().zip(&ELSEWHERE) {
            made(rt, game, *code);
            if game.status() == Status::Open {
                made(rt, game, *other);
            }
        }
    }

    // Each stone of a line may be the one that completes it.
    fn wins(rt: &impl Abort, line: [u16; 5]) {
        for last in 0..5usize {
            let mut codes = line;
            codes.swap(last, 4);
            let mut game = Gomoku::new();
            play(rt, &mut game, &codes[..4]);
            stands(rt, &game, Status::Open, 8);
            made(rt, &mut game, codes[4]);
            stands(rt, &game, Status::Won(Side::First), 9);
        }
    }

    fn all_win(rt: &impl Abort, lines: &[[u16; 5]]) {
        for line in lines {
            wins(rt, *line);
        }
    }

    fn stays_open(rt: &impl Abort, codes: &[u16]) {
        let mut game = Gomoku::new();
        play(rt, &mut game, codes);
        assert_eq!(rt; game.status(), Status::Open);
    }

    // Whether a pattern gives the point to First: none of its lines is longer than two.
    fn is_firsts(code: u16) -> bool {
        (code % 15 + 2 * (code / 15 % 2)) % 4 < 2
    }

    // A new board with some stones laid by the pattern, the lowest point of each side first.
    fn filled(rt: &impl Abort, stones: u32) -> Gomoku {
        let mut firsts = (0..225u16).filter(|code| is_firsts(*code));
        let mut seconds = (0..225u16).filter(|code| !is_firsts(*code));
        let mut game = Gomoku::new();
        for n in 0..stones {
            let next = if n % 2 == 0 {
                firsts.next()
            } else {
                seconds.next()
            };
            made(rt, &mut game, next.unwrap_or(225));
        }
        game
    }

    #[test]
    fn starts_free(rt: HostRuntime) {
        let game = Gomoku::new();
        stands(&rt, &game, Status::Open, 0);
        chances(&rt, &game, true, true);
        shows(&rt, &game, 0, 0, Point::Free);
        shows(&rt, &game, 14, 14, Point::Free);
    }

    #[test]
    fn shows_nothing_outside(rt: HostRuntime) {
        let game = Gomoku::new();
        lies_outside(&rt, &game, 15, 0);
        lies_outside(&rt, &game, 0, 15);
        lies_outside(&rt, &game, 255, 255);
    }

    #[test]
    fn names_its_constants(rt: HostRuntime) {
        assert_eq!(rt; <Gomoku as Rules>::CODES, 225);
        assert_eq!(rt; <Gomoku as Rules>::LONGEST, 225);
    }

    #[test]
    fn shows_stones_in_turn(rt: HostRuntime) {
        let mut game = Gomoku::new();
        made(&rt, &mut game, 0);
        made(&rt, &mut game, 14);
        made(&rt, &mut game, 15);
        shows(&rt, &game, 0, 0, Point::Stone(Side::First));
        shows(&rt, &game, 14, 0, Point::Stone(Side::Second));
        shows(&rt, &game, 0, 1, Point::Stone(Side::First));
        shows(&rt, &game, 1, 0, Point::Free);
    }

    #[test]
    fn level_lines_win(rt: HostRuntime) {
        all_win(
            &rt,
            &[
                [0, 1, 2, 3, 4],
                [10, 11, 12, 13, 14],
                [210, 211, 212, 213, 214],
                [220, 221, 222, 223, 224],
            ],
        );
    }

    #[test]
    fn upright_lines_win(rt: HostRuntime) {
        all_win(
            &rt,
            &[
                [0, 15, 30, 45, 60],
                [150, 165, 180, 195, 210],
                [14, 29, 44, 59, 74],
                [164, 179, 194, 209, 224],
            ],
        );
    }

    #[test]
    fn rising_lines_win(rt: HostRuntime) {
        all_win(
            &rt,
            &[
                [0, 16, 32, 48, 64],
                [160, 176, 192, 208, 224],
                [10, 26, 42, 58, 74],
                [150, 166, 182, 198, 214],
            ],
        );
    }

    #[test]
    fn falling_lines_win(rt: HostRuntime) {
        all_win(
            &rt,
            &[
                [14, 28, 42, 56, 70],
                [154, 168, 182, 196, 210],
                [4, 18, 32, 46, 60],
                [164, 178, 192, 206, 220],
            ],
        );
    }

    #[test]
    fn lines_do_not_wrap(rt: HostRuntime) {
        stays_open(&rt, &[11, 12, 13, 14, 15]);
        stays_open(&rt, &[14, 15, 16, 18, 19]);
        stays_open(&rt, &[12, 28, 44, 60, 76]);
        stays_open(&rt, &[2, 16, 30, 44, 58]);
        stays_open(&rt, &[165, 180, 195, 210, 0]);
    }

    #[test]
    fn a_gap_filled_to_six_wins(rt: HostRuntime) {
        let mut game = Gomoku::new();
        play(&rt, &mut game, &[0, 1, 2, 4, 5]);
        stands(&rt, &game, Status::Open, 10);
        made(&rt, &mut game, 3);
        stands(&rt, &game, Status::Won(Side::First), 11);
    }

    #[test]
    fn two_lines_at_once_win(rt: HostRuntime) {
        let mut game = Gomoku::new();
        play(&rt, &mut game, &[1, 2, 3, 4, 15, 30, 45, 60]);
        stands(&rt, &game, Status::Open, 16);
        made(&rt, &mut game, 0);
        stands(&rt, &game, Status::Won(Side::First), 17);
    }

    #[test]
    fn second_wins_too(rt: HostRuntime) {
        let mut game = Gomoku::new();
        made(&rt, &mut game, 224);
        play(&rt, &mut game, &[4, 18, 32, 46]);
        stands(&rt, &game, Status::Open, 9);
        made(&rt, &mut game, 60);
        stands(&rt, &game, Status::Won(Side::Second), 10);
        assert!(rt; game.chance(Side::Second));
    }

    #[test]
    fn codes_outside_are_illegal(rt: HostRuntime) {
        let mut game = Gomoku::new();
        for code in 225..=65535u16 {
            refused(&rt, &mut game, code);
        }
        stands(&rt, &game, Status::Open, 0);
        made(&rt, &mut game, 0);
        shows(&rt, &game, 0, 0, Point::Stone(Side::First));
    }

    #[test]
    fn a_taken_point_is_illegal(rt: HostRuntime) {
        let mut game = Gomoku::new();
        made(&rt, &mut game, 112);
        refused(&rt, &mut game, 112);
        shows(&rt, &game, 7, 7, Point::Stone(Side::First));
        made(&rt, &mut game, 113);
        refused(&rt, &mut game, 112);
        shows(&rt, &game, 8, 7, Point::Stone(Side::Second));
        stands(&rt, &game, Status::Open, 2);
    }

    #[test]
    fn nothing_is_legal_after_the_end(rt: HostRuntime) {
        let mut game = Gomoku::new();
        play(&rt, &mut game, &[0, 1, 2, 3, 4]);
        for code in 0..=65535u16 {
            refused(&rt, &mut game, code);
        }
        stands(&rt, &game, Status::Won(Side::First), 9);
    }

    #[test]
    fn a_full_board_is_drawn(rt: HostRuntime) {
        let mut game = filled(&rt, 224);
        stands(&rt, &game, Status::Open, 224);
        refused(&rt, &mut game, 0);
        made(&rt, &mut game, 223);
        stands(&rt, &game, Status::Drawn, 225);
        for code in 0..300u16 {
            refused(&rt, &mut game, code);
        }
        chances(&rt, &game, false, false);
    }

    #[test]
    fn first_loses_its_chance(rt: HostRuntime) {
        chances(&rt, &filled(&rt, 219), true, true);
        chances(&rt, &filled(&rt, 220), false, true);
    }

    #[test]
    fn then_second_does(rt: HostRuntime) {
        chances(&rt, &filled(&rt, 222), false, true);
        let game = filled(&rt, 223);
        chances(&rt, &game, false, false);
        stands(&rt, &game, Status::Open, 223);
    }

    #[test]
    fn reset_starts_again(rt: HostRuntime) {
        let mut game = Gomoku::new();
        play(&rt, &mut game, &[0, 1, 2, 3, 4]);
        game.reset();
        stands(&rt, &game, Status::Open, 0);
        shows(&rt, &game, 0, 0, Point::Free);
        made(&rt, &mut game, 0);
        shows(&rt, &game, 0, 0, Point::Stone(Side::First));
    }

    #[test]
    fn a_copy_goes_its_own_way(rt: HostRuntime) {
        let mut game = Gomoku::new();
        play(&rt, &mut game, &[0, 1, 2, 3]);
        let mut other = game.copy();
        made(&rt, &mut other, 4);
        stands(&rt, &other, Status::Won(Side::First), 9);
        stands(&rt, &game, Status::Open, 8);
        made(&rt, &mut game, 200);
        shows(&rt, &game, 4, 0, Point::Free);
        shows(&rt, &other, 5, 13, Point::Free);
    }
}
