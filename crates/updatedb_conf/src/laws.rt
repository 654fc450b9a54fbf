//! Laws of configurations, each the contract of a function that does nothing.
ghost use Rattle.std.specs.Prelude.{◌≡◌, ◌+◌, ◌≤◌, ◌||◌, length, map};
ghost use Rattle.std.specs.List.{list_any};
ghost use Rattle.std.specs.Str.{bytes_eq};
ghost use Rattle.updatedb_conf.specs.Block.{block};
ghost use Rattle.updatedb_conf.specs.Settings.{settings_room};
ghost use Rattle.updatedb_conf.specs.Words.{has, joined, members, set_of};

use crate::conf::Conf;

/// A set of listed words has exactly these. Of a set to which words were joined, the members are the words of both.
pub fn words_of_sets(list: &[&[u8]], more: &[&[u8]], word: &[u8])
    ensures made { has (set_of (map (λ w. w.now) list.now)) word.now ≡ list_any (bytes_eq word.now) (map (λ w. w.now) list.now) }
    ensures joined { has (joined (set_of (map (λ w. w.now) list.now)) (map (λ w. w.now) more.now)) word.now
        ≡ (list_any (bytes_eq word.now) (map (λ w. w.now) list.now) || list_any (bytes_eq word.now) (map (λ w. w.now) more.now)) }
{}

/// The block of a configuration has at most 75 bytes besides those of its words, each with one more.
#[tactic(auto, using(crate::proofs::BlockRooms::length_block))]
pub fn block_is_short(conf: &Conf)
    ensures { length (block conf.now) ≤ 75 + settings_room conf.now }
{
    let _margin = conf.margin();
}
