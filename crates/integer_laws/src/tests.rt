use super::*;

#[test]
fn each_step_on_small_numbers(rt: HostRuntime) {
    let cases: [(i32, i32, i128, i128, i128); 5] = [
        (0, 0, 0, 0, 0),
        (7, -3, 4, 10, -21),
        (-7, -3, -10, -4, 21),
        (-3, 7, 4, -10, -21),
        (
            2_000_000_000,
            2_000_000_000,
            4_000_000_000,
            0,
            4_000_000_000_000_000_000,
        ),
    ];
    for (a, b, added, left, times) in cases {
        let x = i128::from(a);
        let y = i128::from(b);
        assert!(rt; sum(x, y) == added && difference(x, y) == left);
        assert!(rt; product(x, y) == times && wide_product(i64::from(a), i64::from(b)) == times);
        assert!(rt; compare(x, y) == left.cmp(&0));
    }
}
