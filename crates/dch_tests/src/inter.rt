use dch_inter::{first, second};

/// The places that the columns of eight bits show, in four columns and in eight.
fn shown() -> [usize; 8] {
    [0, 4, 2, 6, 1, 5, 3, 7]
}

#[test]
fn places_of_both_interleavers(rt: HostRuntime) {
    let shown = shown();
    for k in 0..8usize {
        assert!(rt; first(4, 8, k) == shown[k] && first(8, 8, k) == shown[k]);
    }
    assert!(rt; second(31, 0) == 0 && second(31, 1) == 30 && second(31, 2) == 20);
}
