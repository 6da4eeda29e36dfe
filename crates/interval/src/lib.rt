// Intervals of the journal's ring (source 002, but for what needs a parser). The public face:
//   JournalInterval   a start and a len in blocks, going round the ring; which are valid, contiguous, within one another, overlap
//   its parts         front and back, the point after it, two in a row, the interval of a location
// Every function is total. Most ask questions 1 and 4, and answer the value or the refusal. `valid`, `contiguous`,
// `front` and `back` ask nothing: they are what the source defines, for any geometry and any interval. Nor do `meets` and `overlaps`, the plain and
// the cyclic test of overlap: they are the source's where neither interval is empty, and an empty one overlaps nothing.
#![tactic(auto, using(refusal::specs::Refusal::questions, laws::specs::Choice::tests, crate::specs::Facts::interval_asked, crate::specs::Facts::intervals_asked, crate::specs::Facts::in_row_asked, crate::specs::Facts::block_asked), unfolding(laws::specs::Choice::and_then, laws::specs::Choice::ask, laws::specs::Choice::also, laws::specs::Choice::either, crate::specs::Interval::ask_interval, crate::specs::Interval::ask_intervals, crate::specs::Interval::ask_contiguous, crate::specs::Interval::ask_in_row, crate::specs::Interval::ask_block, crate::specs::Interval::valid_journal_interval, crate::specs::Interval::contiguous_journal_interval, crate::specs::Interval::in_cyclic_range, crate::specs::Interval::journal_front_interval, crate::specs::Interval::journal_back_interval, crate::specs::Interval::subinterval, crate::specs::Interval::next_start_point, crate::specs::Overlap::source_interval_overlap, crate::specs::Overlap::source_overlap_parts, crate::specs::Overlap::source_cyclic_interval_overlap, crate::specs::Overlap::journal_interval_overlap, crate::specs::Overlap::journal_cyclic_interval_overlap))]

mod interval;
mod overlap;

// A start (0 to N - 1) and a len (0 to N), both in blocks, going round. Any two numbers make one.
#[derive(Clone, Copy, PartialEq, Eq)]
pub struct JournalInterval {
    pub start: u64,
    pub len: u64,
}
