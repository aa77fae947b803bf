//! Handlers of closures, alone and with others for the same tag.
ghost use Rattle.std.specs.Prelude.{◌≡◌, ◌++◌, Some, None, IfOk, codes, string_bytes};
ghost use Rattle.htmd.specs.Handling.{nothing, content_of_children, content_of_fallback};
ghost use Rattle.htmd.specs.Views.{optional_result};

use htmd::HtmlToMarkdown;
use htmd::element_handler::{Element, FnHandler, HandlerResult, HandlerRule, Plan};
use htmd_test_expected::expect_text;
use std::alloc::{AllocError, Global};
use std::test::Fail;

/// The children's content, and an exclamation mark after it.
#[derive(Drop)]
struct Exclaims;

impl HandlerRule for Exclaims {
    ghost rule_plan = { λ _ _. content_of_children };

    ghost rule_finish = { λ _ _ given. Some (record {
      content = given.content ++ codes "!";
      markdown_translated = given.markdown_translated;
    }) };
}

/// What the handler before gives.
#[derive(Drop)]
struct PassesOn;

impl HandlerRule for PassesOn {
    ghost rule_plan = { λ _ _. content_of_fallback };

    ghost rule_finish = { λ _ _ given. Some given };
}

/// Nothing.
#[derive(Drop)]
struct Skips;

impl HandlerRule for Skips {
    ghost rule_plan = { λ _ _. nothing };

    ghost rule_finish = { λ _ _ _. None };
}

// A closure that keeps a text.
#[test]
fn keeps_a_text(rt: HostRuntime) -> Result<(), Fail> {
    let mark = String::from_str(rt.alloc(), "!")?;
    let handler = FnHandler::new(
        Exclaims,
        |_alloc: Global, _element: &Element| -> Result<Plan, AllocError> { Ok(Plan::Children) },
        move |_alloc: Global, _element: &Element, content: HandlerResult| -> Result<
            Option<HandlerResult>,
            AllocError,
        >
            ensures { IfOk result (λ r. optional_result r ≡ Some (record {
              content = string_bytes content.content ++ string_bytes mark;
              markdown_translated = content.markdown_translated;
            })) }
        {
            let mut content = content;
            content.content.push_str(mark.as_str())?;
            Ok(Some(content))
        },
    );
    let Ok(builder) = HtmlToMarkdown::builder(rt.alloc())?.add_fn_handler(&["p"], handler) else {
        return Err(Fail::from("there is memory"));
    };
    let converter = builder.build();
    for (html, markdown) in [("<p>a</p>", "a!"), ("<p>a</p>b", "a!b")] {
        let answer = converter.convert(rt.alloc(), html)?;
        expect_text(html, answer.as_str(), markdown)?;
    }
    Ok(())
}

// Two of them for one tag, and skipped tags between: the newest is called first.
#[test]
fn asks_the_newest_first(rt: HostRuntime) -> Result<(), Fail> {
    let exclaims = FnHandler::new(
        Exclaims,
        |_alloc: Global, _element: &Element| -> Result<Plan, AllocError> { Ok(Plan::Children) },
        |_alloc: Global, _element: &Element, content: HandlerResult| -> Result<
            Option<HandlerResult>,
            AllocError,
        > {
            let mut content = content;
            content.content.push_str("!")?;
            Ok(Some(content))
        },
    );
    let passes_on = FnHandler::new(
        PassesOn,
        |_alloc: Global, _element: &Element| -> Result<Plan, AllocError> { Ok(Plan::Fallback) },
        |_alloc: Global, _element: &Element, content: HandlerResult| -> Result<
            Option<HandlerResult>,
            AllocError,
        > { Ok(Some(content)) },
    );
    let Ok(builder) = HtmlToMarkdown::builder(rt.alloc())?.add_fn_handler(&["b"], exclaims) else {
        return Err(Fail::from("there is memory"));
    };
    let Ok(builder) = builder.skip_tags(&["i"]) else {
        return Err(Fail::from("there is memory"));
    };
    let Ok(builder) = builder.add_fn_handler(&["b", "i", "u"], passes_on) else {
        return Err(Fail::from("there is memory"));
    };
    let converter = builder.build();
    let answer = converter.convert(rt.alloc(), "<b>a</b><i>gone</i><u> c</u>")?;
    expect_text("newest", answer.as_str(), "a! c")
}

// Closures may skip what the built-in handler would give.
#[test]
fn passes_over(rt: HostRuntime) -> Result<(), Fail> {
    let handler = FnHandler::new(
        Skips,
        |_alloc: Global, _element: &Element| -> Result<Plan, AllocError> { Ok(Plan::Skip) },
        |_alloc: Global, _element: &Element, _content: HandlerResult| -> Result<
            Option<HandlerResult>,
            AllocError,
        > { Ok(None) },
    );
    let Ok(builder) = HtmlToMarkdown::builder(rt.alloc())?.add_fn_handler(&["hr"], handler) else {
        return Err(Fail::from("there is memory"));
    };
    let converter = builder.build();
    let answer = converter.convert(rt.alloc(), "a<hr><b>c</b>")?;
    expect_text("skipped", answer.as_str(), "a**c**")
}
