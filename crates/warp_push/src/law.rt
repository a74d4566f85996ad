//! A law: what pages come to that are pushed to a watcher, in whatever order they come.
ghost use Rattle.std.specs.Prelude.{List};
ghost use Rattle.warp_push.specs.Pages.{ArePushedInOrder, Span};
ghost use Rattle.warp_push.specs.declared.marks.Cursor.{Cursor};

/// Whatever pages come to a watcher: it is given the places from its first on, in order, none twice and none left out.
pub fn pages_leave_nothing_out()
    ensures { (spans : List Span) (watcher : Cursor) → ArePushedInOrder spans watcher }
{}
