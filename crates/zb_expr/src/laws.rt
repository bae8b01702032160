ghost use Rattle.std.specs.Prelude.{◌≡◌, ◌≤◌, ℕ, List, length};
ghost use Rattle.std.specs.Str.{IsUtf8};
ghost use Rattle.zb_process.specs.Tree.{Tree};
ghost use Rattle.zb_expr.specs.Lexical.{IsExpr};
ghost use Rattle.zb_expr.specs.Printing.{HasUtf8Texts, IsPrintable, printed};

/// What is printed of a tree is an expression that has this tree and no other, so reading it gives the tree again. It
/// is UTF-8 where the texts in the tree are.
/// That can be done to each tree that some text has, where what is printed has at most 4,096 bytes.
pub fn printed_trees_are_read_again()
    ensures again { (tree : Tree) → IsPrintable tree → IsExpr (printed tree) tree }
    ensures only { (tree other : Tree) → IsPrintable tree → IsExpr (printed tree) other → other ≡ tree }
    ensures utf8 { (tree : Tree) → IsPrintable tree → HasUtf8Texts tree → IsUtf8 (printed tree) }
    ensures each { (text : List ℕ) (tree : Tree) → IsExpr text tree → length (printed tree) ≤ 4096 → IsPrintable tree }
{}
