//! The texts of errors, as they are displayed and for debugging.
use htmd::options::Options;
use htmd::{Attribute, ConvertError, FaultKind, ReadError, Tree, TreeError};
use htmd_test_expected::expect_text;
use std::alloc::Global;
use std::test::Fail;

#[test]
fn names_faults(rt: HostRuntime) -> Result<(), Fail> {
    const ROWS: &[(FaultKind, &str)] = &[
        (FaultKind::Nul, "Nul"),
        (FaultKind::MalformedTag, "MalformedTag"),
        (FaultKind::MalformedComment, "MalformedComment"),
        (FaultKind::MalformedDeclaration, "MalformedDeclaration"),
        (FaultKind::UnknownReference, "UnknownReference"),
        (FaultKind::BadNumber, "BadNumber"),
        (FaultKind::DuplicateAttribute, "DuplicateAttribute"),
        (FaultKind::SelfClosing, "SelfClosing"),
        (FaultKind::TagOutside, "TagOutside"),
        (FaultKind::NotAllowedHere, "NotAllowedHere"),
        (FaultKind::StrayEndTag, "StrayEndTag"),
        (FaultKind::StrayText, "StrayText"),
        (FaultKind::Unclosed, "Unclosed"),
        (FaultKind::ScriptEscape, "ScriptEscape"),
        (FaultKind::TooDeep, "TooDeep"),
    ];
    for &(kind, name) in ROWS {
        expect_text(name, format!(in rt.alloc(); "{kind}")?.as_str(), name)?;
        expect_text(name, format!(in rt.alloc(); "{kind:?}")?.as_str(), name)?;
    }
    Ok(())
}

#[test]
fn tells_errors_of_trees(rt: HostRuntime) -> Result<(), Fail> {
    for (error, shown) in [
        (TreeError::Memory, "out of memory Memory"),
        (TreeError::TooDeep, "too deep TooDeep"),
    ] {
        let text = format!(in rt.alloc(); "{error} {error:?}")?;
        expect_text(shown, text.as_str(), shown)?;
    }
    Ok(())
}

// An error of reading tells the same as the error of a conversion that is made from it.
fn expect_told(alloc: Global, error: ReadError, shown: &str) -> Result<(), Fail> {
    let text = format!(in alloc; "{error} {error:?}")?;
    expect_text("reading", text.as_str(), shown)?;
    let error = ConvertError::from(error);
    let text = format!(in alloc; "{error} {error:?}")?;
    expect_text("conversion", text.as_str(), shown)
}

#[test]
fn tells_errors_of_reading(rt: HostRuntime) -> Result<(), Fail> {
    let place = 5;
    let kind = FaultKind::StrayText;
    let refused = ReadError::Refused { place, kind };
    let shown = "refused at byte 5: StrayText Refused { place: 5, kind: StrayText }";
    expect_told(rt.alloc(), refused, shown)?;
    expect_told(rt.alloc(), ReadError::Memory, "out of memory Memory")
}

#[test]
fn tells_values(rt: HostRuntime) -> Result<(), Fail> {
    let root = Tree::new(rt.alloc())?.root();
    let text = format!(in rt.alloc(); "{root:?}")?;
    expect_text("node", text.as_str(), "NodeId { index: 0 }")
}

#[test]
fn tells_attributes(rt: HostRuntime) -> Result<(), Fail> {
    let name = String::from_str(rt.alloc(), "title")?;
    let value = String::from_str(rt.alloc(), "a \"b\"")?;
    let attribute = Attribute { name, value };
    let text = format!(in rt.alloc(); "{attribute:?}")?;
    let debug = "Attribute { name: \"title\", value: \"a \\\"b\\\"\" }";
    expect_text("attribute", text.as_str(), debug)
}

#[test]
fn tells_options(rt: HostRuntime) -> Result<(), Fail> {
    let options = Options::default();
    let debug =
        "Options { heading_style: Atx, hr_style: Asterisks, br_style: TwoSpaces, link_style: Inlined, \
                 link_reference_style: Full, code_block_style: Fenced, code_block_fence: Backticks, \
                 bullet_list_marker: Asterisk, ul_bullet_spacing: 3, ol_number_spacing: 2, \
                 preformatted_code: false, translation_mode: Pure }";
    let text = format!(in rt.alloc(); "{options:?}")?;
    expect_text("options", text.as_str(), debug)
}
