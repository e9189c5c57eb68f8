//! What is true after any calls. Each function stands for the law that its contract states; a call of it
//! does nothing.
ghost use Rattle.std.specs.Prelude.{◌≡◌, ◌≤◌, ◌↔◌, ℕ, List, Contains, length, map};
ghost use Rattle.delta_index.specs.Index.{entry_of};
ghost use Rattle.xfs_base.specs.declared.block.BlockId.{BlockId};
ghost use Rattle.xfs_base.specs.declared.entry.Entry.{Entry};
ghost use Rattle.index_pages.specs.declared.layout.Page.{Page};
ghost use Rattle.index_pages.specs.Layout.{first_block};
ghost use Rattle.index_pages.specs.Pages.{pages_new, page_of, changed_from, rows_on};
ghost use Rattle.index_pages.specs.Calls.{Call, after_calls, last_put, pages_begun, puts_since_clean, IsPutOn, place_from, page_with};

/// After any puts, merges and cleans pages answer as the plain table: at each block what was put last, a
/// merge being a put where its entry is newer.
pub fn pages_answer_as_the_plain_table()
    ensures { (calls : List Call) (block : BlockId) → entry_of (after_calls pages_new calls).rows block ≡ last_put calls block }
{}

/// The pages stand in order of the first put on each, and have changed just where something was put on
/// them since the last clean; a block's page is found by that place. So `changed` answers just the numbers
/// of the pages on which something was put since the last clean, be it by a put or by a merge that took.
pub fn pages_change_where_something_is_put()
    ensures pages { (calls : List Call) → (after_calls pages_new calls).pages ≡ map (page_with (puts_since_clean calls)) (pages_begun calls) }
    ensures numbers { (calls : List Call) (block : BlockId)
        → page_of (after_calls pages_new calls) block ≡ place_from 0 (first_block block) (pages_begun calls) }
    ensures changed { (calls : List Call) (number : ℕ) → Contains (changed_from 0 (after_calls pages_new calls).pages) number ↔ IsPutOn calls number }
{}

/// A page has at most 64 rows, whatever is put.
pub fn pages_have_few_rows()
    ensures { (rows : List (BlockId × Entry)) (page : Page) → length (rows_on rows page) ≤ 64 }
{}
