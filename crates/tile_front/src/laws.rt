//! What holds of requests, as laws of the definitions by which `read_request` is exact.
ghost use Rattle.tile_front.specs.Laws.{NoHeadUnlessWhole, OneHead, OneTarget, BadStays, WholeStays};

/// Bytes that are refused, and those to which more is waited for, begin with no head of at most 32
/// headers. Bytes begin with one head at most, and a target asks for one thing of one tile at most.
pub fn law_one_request()
    ensures none { NoHeadUnlessWhole }
    ensures head { OneHead }
    ensures target { OneTarget }
{}

/// What is refused stays refused, and a whole head stays the same, whatever bytes follow.
pub fn law_stays()
    ensures bad { BadStays }
    ensures whole { WholeStays }
{}
