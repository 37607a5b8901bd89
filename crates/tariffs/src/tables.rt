// The tables of the two tariffs, in millionths.

/// Where each band of the postage of a weight begins, and its price, in millionths: 1.5 from 0 on,
/// 2.75 from 0.5, 5.4 from 2 and 9.9 from 10.
pub const POSTAGE: [(i64, i64); 4] = [
    (0, 1_500_000),
    (500_000, 2_750_000),
    (2_000_000, 5_400_000),
    (10_000_000, 9_900_000),
];

/// Where each tier of the levy on an amount begins, and its rate, in millionths: 0.1 from 0 on, 0.2
/// from 1,000 and 0.25 from 5,000.
pub const LEVY: [(i64, i64); 3] = [
    (0, 100_000),
    (1_000_000_000, 200_000),
    (5_000_000_000, 250_000),
];

/// What the tiers below each tier of the levy take in all, in millionths.
pub const LEVIED_BELOW: [u64; 3] = [0, 100_000_000, 900_000_000];
