// Ranks and RankLimit (01, "Rank and freshness").
#![tactic(auto)]

ghost use Rattle.std.specs.Prelude.{◌≡◌};
ghost use Rattle.plain.specs.Rank.{own_rank, integer_part, over_limit, rank_refused};

// Our own rank. The sum is made on 32 bits: it can be more than 65,535.
pub fn own_rank(advertised: u16, increase: u16) -> u32
    ensures { result ≡ own_rank advertised increase }
{
    u32::from(advertised) + u32::from(increase)
}

// The integer part of a rank, where `step` is MinHopRankIncrease. A step of 0, which no message that is read has, gives 0.
#[tactic(auto, using(lemmas::proofs::Cases::cases), unfolding(plain::specs::Rank::integer_part))]
pub fn integer_part(step: u16, rank: u16) -> u16
    ensures { result ≡ integer_part step rank }
{
    rank.checked_div(step).unwrap_or(0)
}

// Whether the integer parts of the advertised rank and of our own are over RankLimit.
#[tactic(auto, using(lemmas::proofs::Cases::cases), unfolding(plain::specs::Rank::over_limit))]
pub fn is_over_limit(limit: u8, theirs: u16, ours: u16, is_end: bool) -> bool
    ensures { result ≡ over_limit limit theirs ours is_end }
{
    let most = u16::from(limit);
    limit != 0 && (most <= theirs || most < ours || (ours == most && !is_end))
}

// Whether a message is refused for its rank.
#[tactic(auto, using(lemmas::proofs::Cases::cases), unfolding(plain::specs::Rank::rank_refused))]
pub fn is_refused(step: u16, advertised: u16, increase: u16, limit: u8, is_end: bool) -> bool
    ensures { result ≡ rank_refused step advertised increase limit is_end }
{
    let Ok(own) = u16::try_from(own_rank(advertised, increase)) else {
        return true;
    };
    increase < step
        || own == 65535
        || is_over_limit(
            limit,
            integer_part(step, advertised),
            integer_part(step, own),
            is_end,
        )
}
