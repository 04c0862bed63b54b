ghost use Rattle.std.specs.Prelude.{◌≡◌, ◌≤◌, ◌∷◌, ◌++◌, [], length, decimal};
ghost use Rattle.ris_base.specs.Transcript.{journal_fields, summary_fields};
ghost use Rattle.ris_base.specs.Transcript.JournalLine.{EntryLine, MarkLine, LeaveLine};
ghost use Rattle.ris_text.specs.Counts.{summary_with};
ghost use Rattle.ris_text.specs.Spelled.{IsLine};

use crate::counts::Counts;
use crate::tails::Tail;

/// Puts the journal line of an entry.
pub fn put_entry(tail: &mut Tail, place: u64, session: u32, seq: u64)
    ensures { IsLine (journal_fields (EntryLine place session seq)) tail.new }
{
    put_command(tail, place, session, seq);
    tail.put_word(b"journal,entry,");
}

/// Puts the journal line of a mark.
pub fn put_mark(tail: &mut Tail, front: u64, session: u32, seq: u64)
    ensures { IsLine (journal_fields (MarkLine front session seq)) tail.new }
{
    put_command(tail, front, session, seq);
    tail.put_word(b"journal,mark,");
}

/// Puts the journal line of a leave.
pub fn put_leave(tail: &mut Tail, front: u64, session: u32, seq: u64)
    ensures { IsLine (journal_fields (LeaveLine front session seq)) tail.new }
{
    put_command(tail, front, session, seq);
    tail.put_word(b"journal,leave,");
}

/// Puts a number of entries, a session and the number of its command as the end of a line.
fn put_command(tail: &mut Tail, entries: u64, session: u32, seq: u64)
    ensures bytes { tail.new ≡ decimal entries ++ (44 ∷ (decimal session ++ (44 ∷ (decimal seq ++ 10 ∷ [])))) }
    ensures len { length tail.new ≤ 128 }
{
    tail.begin();
    tail.put_number(seq);
    tail.put_next(u64::from(session));
    tail.put_next(entries);
}

/// Puts the summary line.
pub fn put_counts(tail: &mut Tail, counts: Counts, visits: u64)
    ensures { IsLine (summary_fields (summary_with counts visits)) tail.new }
{
    tail.begin();
    tail.put_number(visits);
    tail.put_next(counts.refused);
    tail.put_next(counts.marks);
    tail.put_next(counts.entries);
    tail.put_word(b"summary,");
}
