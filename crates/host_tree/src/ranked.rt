//! Names with a number that tells most of them apart, so that few texts are read when they are put in order.
ghost use Rattle.std.specs.Prelude.{◌≡◌, ◌+◌, ◌*◌, ◌<◌, ◌^◌, drop, get_or};
ghost use Rattle.std.specs.Str.{bytes_eq};
ghost use Rattle.tree_trait.specs.Answers.{name_cmp};
ghost use Rattle.host_tree.specs.Ranks.{AreBytes, rank_of};

use mc_text::Name;
use std::cmp::Ordering;
use std::marker::Model;

/// A name, and the number that its first eight bytes spell. Contracts see the name.
#[derive(Drop)]
pub struct RankedName {
    rank: u64,
    name: Name,
}

impl Model for RankedName {
    ghost use Rattle.std.specs.Prelude.{◌≡◌, List, ℕ};
    ghost use Rattle.host_tree.specs.Ranks.{AreBytes, rank_of};

    ghost Value = { List ℕ };

    ghost view = { λ n. n.name };

    ghost invariant = { λ n. (n.rank ≡ rank_of n.name) × AreBytes n.name };
}

impl RankedName {
    /// A name with its number.
    pub fn of(name: Name) -> RankedName
        ensures { result ≡ name }
    {
        let rank = rank_of(name.text().as_bytes());
        RankedName { rank, name }
    }

    /// The name alone.
    pub fn into_name(self) -> Name
        ensures { result ≡ self }
    {
        self.name
    }

    /// How two names stand in the order of their bytes.
    #[tactic(auto, using(crate::proofs::RankLemmas::orders_by_rank))]
    pub fn order(&self, other: &RankedName) -> Ordering
        ensures { result ≡ name_cmp self.now other.now }
    {
        if self.rank < other.rank {
            return Ordering::Less;
        }
        if other.rank < self.rank {
            return Ordering::Greater;
        }
        self.name.order(&other.name)
    }

    /// Whether two names are one.
    pub fn same(&self, other: &RankedName) -> bool
        ensures { result ≡ bytes_eq self.now other.now }
    {
        self.name.same(&other.name)
    }
}

/// The number that the first eight bytes of a name spell, with zeros where it has fewer.
fn rank_of(name: &[u8]) -> u64
    ensures rank { result ≡ rank_of name.now }
    ensures bytes { AreBytes name.now }
{
    let (front, rest) = four_digits(name);
    let (back, _) = four_digits(rest);
    front * 0x1_0000_0000 + back
}

/// The number that the next four bytes spell, and what is behind them.
fn four_digits(bytes: &[u8]) -> (u64, &[u8])
    ensures number { result.0 ≡ ((get_or bytes.now 0 0 * 256 + get_or (drop 1 bytes.now) 0 0) * 256
        + get_or (drop 1 (drop 1 bytes.now)) 0 0) * 256 + get_or (drop 1 (drop 1 (drop 1 bytes.now))) 0 0 }
    ensures rest { result.1.now ≡ drop 1 (drop 1 (drop 1 (drop 1 bytes.now))) }
    ensures small { result.0 < 2 ^ 32 }
{
    let (first, rest) = digit(bytes);
    let (second, rest) = digit(rest);
    let (third, rest) = digit(rest);
    let (fourth, rest) = digit(rest);
    (((first * 256 + second) * 256 + third) * 256 + fourth, rest)
}

/// The next byte, or zero, and what is behind it.
fn digit(bytes: &[u8]) -> (u64, &[u8])
    ensures digit { result.0 ≡ get_or bytes.now 0 0 }
    ensures rest { result.1.now ≡ drop 1 bytes.now }
    ensures small { result.0 < 256 }
{
    match bytes.split_first() {
        Some((first, rest)) => (*first as u64, rest),
        None => (0, bytes),
    }
}
