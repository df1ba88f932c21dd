//! What is true of the trees of the definitions. The functions do nothing: each contract is a law.

ghost use Rattle.std.specs.Prelude.{◌≡◌, ℕ, true, false, Some, ◌↔◌};
ghost use Rattle.fuse_spec.specs.Values.Numbers.{einval};
ghost use Rattle.fuse_spec.specs.Calls.Paths.{Name};
ghost use Rattle.fuse_spec.specs.Files.Operations.{rename};
ghost use Rattle.fuse_spec.specs.Files.FileOperations.{FileOperation, refusal, tree_after};
ghost use Rattle.fuse_spec.specs.Files.Trees.{Tree, is_directory, is_nameless, is_empty, is_below, file_at};
ghost use Rattle.fuse_spec.specs.Files.TreeShape.{IsBelow, IsShaped, WritesRegular};
ghost use Rattle.fs_tree.specs.Outcomes.{discarded, only_root, without_nameless};

/// A directory is found to be below another one exactly where its parents lead there.
pub fn below_by_parents()
    ensures { (tree : Tree) → IsShaped tree → (top directory : ℕ) → is_directory tree directory ≡ true
        → (is_below tree top directory ≡ true) ↔ IsBelow tree top directory }
{}

/// Where no check before refuses it, a rename is EINVAL exactly where a directory would move into itself or below
/// itself.
pub fn rename_below_itself()
    ensures { (tree : Tree) → IsShaped tree → (from to moved : ℕ) (old new : Name) → is_directory tree from ≡ true
        → is_directory tree to ≡ true →
        file_at tree from old ≡ Some moved → is_nameless tree to ≡ false →
        (refusal tree (rename from old to new) ≡ Some einval) ↔
        ((is_directory tree moved ≡ true) × IsBelow tree moved to) }
{}

/// No name is in a nameless directory.
pub fn nameless_is_empty()
    ensures { (tree : Tree) → IsShaped tree → (file : ℕ) → is_nameless tree file ≡ true → is_empty tree file ≡ true }
{}

/// What is true of every tree stays true, whatever the operation, if no file but a regular one is written.
pub fn operations_keep_shape()
    ensures { (tree : Tree) → IsShaped tree → (operation : FileOperation) → WritesRegular tree operation
        → IsShaped (tree_after tree operation) }
{}

/// It stays true as nameless files are discarded.
pub fn discards_keep_shape()
    ensures one { (tree : Tree) → IsShaped tree → (file : ℕ) → IsShaped (discarded tree file) }
    ensures all { (tree : Tree) → IsShaped tree → IsShaped (without_nameless tree) }
{}

/// It is true of the tree with the root alone.
pub fn root_has_shape()
    ensures { IsShaped only_root }
{}
