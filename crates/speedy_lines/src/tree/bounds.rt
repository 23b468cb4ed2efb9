//! The law that a tree has at most `LEVELS` levels, which callers may cite.
ghost use Rattle.std.specs.Prelude.{◌≡◌, ◌<◌, ◌≤◌, ℕ, List, IsErrAnd};
ghost use Rattle.speedy.specs.declared.error.ErrorKind.{ErrorKind};
ghost use Rattle.speedy.specs.declared.error.ErrorKind.TheVariants.{OutOfRangeLength};
ghost use Rattle.speedy.specs.Mode.{Mode};
ghost use Rattle.speedy.specs.Error.{error_of};
ghost use Rattle.speedy_lines.specs.Trees.{Rose, FitsDigits, depth, view};

use crate::tree::Tree;
use speedy::{Context, Layout, Writable};

/// A tree that bytes encode has at most 16 levels, each one of those has a canonical encoding where its counts fit, and
/// every error that the type names is the same.
pub fn levels_are_bounded()
    ensures encoded { let format = ⟦<Tree as Layout>⟧.layout.format in
        (f : Mode) (r : Rose) (bytes : List ℕ) → (format f).encodes r bytes → depth r ≤ 16 }
    ensures written { let format = ⟦<Tree as Layout>⟧.layout.format in
        (f : Mode) (r : Rose) → FitsDigits r → depth r ≤ 16 → (bytes : List ℕ) × (format f).writes r bytes }
    ensures named { let format = ⟦<Tree as Layout>⟧.layout.format in
        (f : Mode) (kind : ErrorKind) → (format f).names kind → kind ≡ OutOfRangeLength }
{}

/// How many bytes a tree of more levels needs: an error.
pub fn bytes_of_deep_tree<C: Context>(tree: &Tree, context: &mut C) -> Result<usize, C::Error>
    requires { 16 < depth (view tree.now) }
    ensures { IsErrAnd result (λ e. C.Error.from_gives (error_of OutOfRangeLength) e) }
{
    tree.bytes_needed(context)
}
