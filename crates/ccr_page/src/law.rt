//! What holds of all pages.

ghost use Rattle.std.specs.Prelude.{◌≡◌, ℕ, [], List};
ghost use Rattle.ccr_page.specs.Texts.{Text, escaped, Stays};
ghost use Rattle.ccr_page.specs.Builds.{log_link};
ghost use Rattle.ccr_page.specs.Pieces.{PieceData, written};
ghost use Rattle.ccr_page.specs.Markup.{markup_in, template, AreEntities};

/// No text becomes markup. An escaped text has none of `<`, `>`, `"` and `'`, and each `&` of it begins one of the five
/// entities. So the markup of a page is that of its template, whatever the texts are. Nothing runs.
pub fn no_text_is_markup()
    ensures plain { (t : Text) → markup_in (escaped t) ≡ [] }
    ensures entities { (t : Text) → AreEntities (escaped t) }
    ensures template { (ps : List PieceData) → markup_in (written ps) ≡ markup_in (template ps) }
{}

/// No link to a log leads away from the server of its page, whatever the directory of logs and the job's name are: it
/// doesn't begin with two slashes, behind which a server's name stands, and it has no colon, so no scheme. Nothing
/// runs.
pub fn no_link_leaves()
    ensures { (directory name : Text) (n : ℕ) → Stays (written (log_link directory name n)) }
{}
