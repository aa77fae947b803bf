//! What no clause says: that both are written if there is memory, and else the call says that there is none.

use htmd_commonmark::DocumentOptions;
use htmd_document_of_tree::Anchors;
use htmd_law_settled::rounds::{Round, markdown_twice};
use htmd_markdown::{BrStyle, BulletListMarker, CodeBlockFence, HeadingStyle, HrStyle, LinkStyle};
use htmd_test_expected::expect_text;
use std::alloc::{AllocError, Global};
use std::test::Fail;

const OPTIONS: DocumentOptions = DocumentOptions {
    heading_style: HeadingStyle::Atx,
    hr_style: HrStyle::Asterisks,
    br_style: BrStyle::TwoSpaces,
    link_style: LinkStyle::Inlined,
    code_block_fence: CodeBlockFence::Backticks,
    bullet_list_marker: BulletListMarker::Asterisk,
    ul_bullet_spacing: 3,
    ol_number_spacing: 2,
};

struct Row {
    page: &'static str,
    anchors: Anchors,
    is_rich: bool,
    markdown: &'static str,
    again: &'static str,
}

const ROWS: &[Row] = &[
    Row {
        page: "<h1>a</h1><p>b <a href='c d'>e</a>",
        anchors: Anchors::None,
        is_rich: false,
        markdown: "# a\n\nb [e](<c d>)",
        again: "# a\n\nb [e](c%20d)",
    },
    Row {
        page: "<details><p>a<p><mark>b</mark></details>",
        anchors: Anchors::None,
        is_rich: true,
        markdown: "<details>\n\na\n\n<mark>b</mark>\n\n</details>",
        again: "<details>\n\na\n\n<mark>b</mark>\n\n</details>",
    },
    Row {
        page: "<h1 id=a>b</h1><p id=c>d <a href='#a'>e</a>",
        anchors: Anchors::Linked,
        is_rich: false,
        markdown: "# <a id=\"a\"></a>b\n\nd [e](#a)",
        again: "# <a id=\"a\"></a>b\n\nd [e](#a)",
    },
    Row {
        page: "<pre id=a>b</pre>",
        anchors: Anchors::All,
        is_rich: false,
        markdown: "<a id=\"a\"></a>\n\n```\nb\n```",
        again: "<a id=\"a\"></a>\n\n```\nb\n```",
    },
];

fn round_of(alloc: Global, row: &Row) -> Result<Round, AllocError> {
    markdown_twice(alloc, row.page, &OPTIONS, false, row.anchors, row.is_rich)
}

fn expect_round(row: &Row, round: &Round) -> Result<(), Fail> {
    expect_text(row.page, round.markdown.as_str(), row.markdown)?;
    expect_text(row.page, round.again.as_str(), row.again)
}

#[test]
fn pages_are_written_twice(rt: HostRuntime) -> Result<(), Fail> {
    for row in ROWS {
        let round = round_of(rt.alloc(), row)?;
        expect_round(row, &round)?;
    }
    Ok(())
}

#[test]
fn passes_or_ends_out_of_memory(rt: HostRuntime) -> Result<(), Fail> {
    for row in ROWS {
        match round_of(rt.alloc(), row) {
            Ok(round) => expect_round(row, &round)?,
            Err(AllocError) => {}
        }
    }
    Ok(())
}
