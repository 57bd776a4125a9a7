//! Texts that tests run.

/// Two lists are appended.
pub const APPEND: &str =
    "MODULE Main;\nSYMBOL REWRITABLE Append;\nSYMBOL CREATABLE Cons, Nil;\nRULE\n  Append[Nil y] => *y;\n  Append[Cons[h t] y] => *Cons[h *Append[t y]];\nINITIAL => *Append[Cons[Nil Nil] Nil];\nENDMODULE Main;\n";

/// What append prints.
pub const APPENDED: &str = "normal 4\n@1 Cons[@2 @3]\n@2 Nil\n@3 Nil\n";

/// A call that starts itself again and again.
pub const LOOP: &str =
    "MODULE M; SYMBOL REWRITABLE Loop; RULE Loop => *Loop; INITIAL => *Loop; ENDMODULE M;";

/// A node that is shared.
pub const PAIR: &str =
    "MODULE M; SYMBOL CREATABLE Pair, Nil; INITIAL => Pair[x:Nil x]; ENDMODULE M;";

/// A call that waits for two nodes.
pub const BOTH: &str =
    "MODULE M; SYMBOL REWRITABLE Both; SYMBOL CREATABLE A, B; RULE Both[A A] => *B; INITIAL => ##Both[^*A ^*A]; ENDMODULE M;";

/// A call that waits for one that is redirected.
pub const KEPT_FLAG: &str =
    "MODULE M; SYMBOL REWRITABLE F, G; SYMBOL CREATABLE A, B; RULE G[A] => *B; F => *A; INITIAL => #G[^*F]; ENDMODULE M;";

/// A group of two rules, of which the second matches.
pub const CHOICES: &str =
    "MODULE M; SYMBOL REWRITABLE F; SYMBOL CREATABLE A, B, Nil; RULE F[x:(ANY - Nil)] => *A | F[Nil] => *B; INITIAL => *F[Nil]; ENDMODULE M;";

/// Two redirections of one node.
pub const TWO_OF_ONE: &str =
    "MODULE M; SYMBOL REWRITABLE Two; SYMBOL OVERWRITABLE Cell; SYMBOL CREATABLE A, B, Out, Nil; RULE r:Two[c:Cell[ANY] d:Cell[ANY]] -> c := A, d := B, r := Out[c]; INITIAL => *Two[x:Cell[Nil] x]; ENDMODULE M;";

/// A node that is redirected to one that is redirected.
pub const CHAIN: &str =
    "MODULE M; SYMBOL REWRITABLE Swap; SYMBOL OVERWRITABLE Cell; SYMBOL CREATABLE Pair, A; RULE Swap[m:Cell n:Cell] => Pair[m n], m := n, n := A; INITIAL => *Swap[Cell Cell]; ENDMODULE M;";

/// A cell that one call reads and another writes.
pub const SHARED_CELL: &str =
    "MODULE M; SYMBOL REWRITABLE Get, Put; SYMBOL OVERWRITABLE Cell; SYMBOL CREATABLE Top, Box, Nil, Used, Yes; RULE Get[Box[Cell]] => Yes; Put[c:Cell] => Nil, c := Used; INITIAL => Top[c:Cell *Get[Box[c]] *Put[c]]; ENDMODULE M;";

/// A sum of integers.
pub const SUM: &str = "MODULE M; IMPORTS Arithmetic; INITIAL => *IAdd[1 2]; ENDMODULE M;";
