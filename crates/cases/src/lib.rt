// The K cases of document 01, as one table about the definitions: specs/Cases.antt. There is no code but a test of two functions
// that no program calls.
#![tactic(auto)]

#[cfg(test)]
mod tests {
    use rows::Board;
    use search::{fresh, search_rows};
    use sets::Set;

    // K5, and of its rows the first and the last alone, which pass at once on two cores.
    #[test]
    fn searches_rows_by_value(rt: HostRuntime) {
        let words = [23, 33, 33, 106, 210, 214, 58, 216, 217];
        let board = Board::limited(&words, 2);
        let all = search_rows(board, Set::below(3));
        assert_eq!(rt; &all.order[..4], [1u8, 0, 2, 255].as_slice());
        assert_eq!(rt; all.placed, 3);
        assert_eq!(rt; all.left, Set::NONE);
        assert_eq!(rt; all.tests, 5);
        let two = search_rows(board, Set::below(3).without(1));
        assert_eq!(rt; &two.order[..4], [255u8, 2, 0, 255].as_slice());
        assert_eq!(rt; two.placed, 2);
        assert_eq!(rt; two.left, Set::NONE);
        assert_eq!(rt; two.tests, 2);
    }

    #[test]
    fn a_fresh_state_has_no_rows(rt: HostRuntime) {
        let state = fresh();
        assert_eq!(rt; state.order, [255; 96]);
        assert_eq!(rt; state.placed, 0);
        assert_eq!(rt; state.cursor, 0);
    }
}
