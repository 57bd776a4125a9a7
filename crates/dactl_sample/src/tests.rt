use crate::{Memory, sample_text};

#[test]
fn samples_are_sums_of_trees(rt: HostRuntime) -> Result<(), Memory> {
    for (count, tree) in [
        (1, "Leaf[0]"),
        (2, "Node[Leaf[0] Leaf[1]]"),
        (3, "Node[Leaf[0] Node[Leaf[1] Leaf[2]]]"),
        (4, "Node[Node[Leaf[0] Leaf[1]] Node[Leaf[2] Leaf[3]]]"),
    ] {
        let text = sample_text(rt.alloc(), count)?;
        let lines = format!(in rt.alloc();
            "MODULE Sample;\nIMPORTS Arithmetic;\nSYMBOL REWRITABLE Sum;\nSYMBOL CREATABLE Node, Leaf;\nRULE\nSum[Leaf[i]] => *i |\nSum[Node[l r]] => ##IAdd[^*Sum[l] ^*Sum[r]];\nINITIAL => *Sum[{tree}];\nENDMODULE Sample;\n"
        )?;
        assert_eq!(rt;
            text.as_slice(),
            lines.as_str().as_bytes(),
            "{count} leaves"
        );
    }
    // 195 bytes around the tree; 6 bytes a leaf and its digits; 7 bytes an inner node.
    assert_eq!(rt;
        sample_text(rt.alloc(), 20_000)?.len(),
        195 + 20_000 * 6 + 88_890 + 19_999 * 7
    );
    Ok(())
}
