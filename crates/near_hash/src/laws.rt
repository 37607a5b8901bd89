// What holds of hashes.
ghost use Rattle.near_hash.specs.Laws.{NearNumbersShareAPlace};

/// Eight numbers that follow one another, from a multiple of eight on, have the same hash after the same writes, but for
/// the three bits that tell them apart.
pub fn near_numbers_share_a_place()
    ensures { NearNumbersShareAPlace }
{}
