//! The formats of databases, told apart by their first bytes.
ghost use Rattle.std.specs.Prelude.{◌≡◌, ◌≤◌, ◌^◌, length, Ok, Err, OnOk, OnErr, IfOk};
ghost use Rattle.loc_outside.specs.Causes.{Rose};
ghost use Rattle.byte_feed.specs.Feed.{Draws, empty_at, reach};
ghost use Rattle.byte_feed.specs.Paths.{no_paths};
ghost use Rattle.byte_feed.specs.Calls.{MovedKnown, EndsKnown, NoPreambleKnown};
ghost use Rattle.byte_feed.specs.declared.damage.DbFault.TheVariants.{ReadFault};
ghost use Rattle.any_db.specs.Formats.{preamble_in, preamble_by, read_as, to_come_by, to_come_in};
ghost use Rattle.any_db.specs.Reader.{ReadAsKnown};

use byte_feed::Feed;
use loc_outside::{Failed, Source};

/// The format of a database.
#[derive(Clone, Copy, Debug, PartialEq, Eq)]
pub enum DatabaseFormat {
    /// That of mlocate, as mlocate.db(5) describes it.
    Mlocate,
    /// The newer one of GNU findutils, as locatedb(5) describes it.
    Locate02,
    /// The older one, of BSD's locate.
    Bigram,
}

/// The format that a file with these bytes is read in; the first ten decide.
#[tactic(auto, using(crate::proofs::FormatAhead::read_mlocate, crate::proofs::FormatAhead::read_locate02, crate::proofs::FormatAhead::read_bigram))]
fn read_by(bytes: &[u8]) -> DatabaseFormat
    ensures { result ≡ read_as bytes.now }
{
    if bytes.starts_with(b"\0mlocate") {
        return DatabaseFormat::Mlocate;
    }
    if bytes.starts_with(b"\0LOCATE02\0") {
        return DatabaseFormat::Locate02;
    }
    DatabaseFormat::Bigram
}

/// Looks at the first ten bytes of a file, which tell the format that it is read in. They stay ahead in the feed.
#[inline(never)]
pub(crate) fn look_format<S: Source>(feed: &mut Feed, src: &mut S) -> Result<DatabaseFormat, Failed>
    requires { feed.old ≡ empty_at 0 }
    ensures told { IfOk result (λ d. ReadAsKnown feed.old (S.left src.old) d) }
    ensures rest { IfOk result (λ d. MovedKnown to_come_in (to_come_by d) (λ t. t) feed.old (S.left src.old) feed.new (S.left src.new)) }
    ensures first { IfOk result (λ d. MovedKnown preamble_in (preamble_by d) (λ b. b) feed.old (S.left src.old) feed.new (S.left src.new)) }
    ensures none { OnErr result (EndsKnown to_come_in (no_paths 0 0) feed.old (S.left src.old) (S.left src.new) (Err ReadFault)) }
    ensures refused { OnErr result (NoPreambleKnown preamble_in feed.old (S.left src.old) (S.left src.new) ReadFault) }
    ensures offset { feed.new.offset ≡ 0 }
    ensures drawn { Draws feed.old feed.new (S.given src.old) (S.given src.new) (S.left src.old) (S.left src.new) }
    ensures held { length feed.new.held ≤ 4096 }
    ensures reach { reach feed.new ≤ 2 ^ 40 }
    ensures fault { OnErr result (Rose (S.faults src.old) (S.faults src.new)) }
    ensures later { S.faults src.old ≤ S.faults src.new }
    ensures kept { S.kept src.old src.new }
{
    let Ok(count) = feed.look(src, 10) else {
        return Err(Failed);
    };
    Ok(read_by(feed.ahead(count)))
}
