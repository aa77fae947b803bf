//! What concerns files: the words of the command line, a small plan, paths, and what the faults write.
use htmd_files::{
    Destination, FilePlan, Naming, Operand, PageKind, PlanFault, is_page, job_of, normal_path,
    plan_of, relative, with_extension,
};
use htmd_test_expected::{expect_text, expect_that};
use std::alloc::{AllocError, Global};
use std::test::Fail;

/// The words between the spaces of a line.
fn words(alloc: Global, line: &str) -> Result<Vec<String>, AllocError> {
    let mut words = Vec::new(alloc);
    for word in line.split(' ') {
        words.push(String::from_str(alloc, word)?)?;
    }
    Ok(words)
}

#[test]
fn words_are_read(rt: HostRuntime) -> Result<(), Fail> {
    let words = words(
        rt.alloc(),
        "--web --progress --links=md -o out a.html -- -b",
    )?;
    let job = job_of(rt.alloc(), words.as_slice())?;
    expect_that(
        "operands",
        job.operands.as_slice() == ["a.html", "-b"].as_slice(),
    )?;
    expect_that("output", job.output == Some("out"))?;
    expect_that("progress", job.shows_progress && !job.is_quiet)?;
    expect_that("links", job.links_to_markdown)?;
    expect_that("options", job.options.len() == 1)
}

/// Lines of words that are no job, and what is written of them.
const WORD_FAULTS: &[(&str, &str)] = &[
    ("a.html -o", "-o needs the name of a file or a folder"),
    (
        "--output= a.html",
        "--output= needs the name of a file or a folder",
    ),
    ("-oa -o b", "there are two outputs, a and b"),
    (
        "--links=html a",
        "'--links=html': the values of --links are md and text",
    ),
    (
        "a --links",
        "'--links': the values of --links are md and text",
    ),
    ("--links=md a", "--links=md needs -o"),
    ("--newer", "--newer needs -o"),
    ("a --copy -o-", "--copy needs -o"),
    (
        "--from-markdown --html --links=md -o out a",
        "--links=md has no effect with --html, which keeps links as they are",
    ),
    (
        "--base=https://a/ --html --from-markdown",
        "--base has no effect with --html, which keeps links as they are",
    ),
    ("--from-markdown --html --links=text a", "none"),
    ("a", "none"),
];

fn word_fault(alloc: Global, line: &str) -> Result<String, Fail> {
    let words = words(alloc, line)?;
    match job_of(alloc, words.as_slice()) {
        Ok(_) => Ok(String::from_str(alloc, "none")?),
        Err(fault) => Ok(format!(in alloc; "{fault}")?),
    }
}

#[test]
fn faults_of_words_name_them(rt: HostRuntime) -> Result<(), Fail> {
    for (line, want) in WORD_FAULTS {
        let message = word_fault(rt.alloc(), line)?;
        expect_text(line, message.as_str(), want)?;
    }
    Ok(())
}

fn file(alloc: Global, path: &str) -> Result<Operand, AllocError> {
    Ok(Operand::File(String::from_str(alloc, path)?))
}

fn folder(alloc: Global, path: &str, files: &str) -> Result<Operand, AllocError> {
    Ok(Operand::Folder {
        path: String::from_str(alloc, path)?,
        files: words(alloc, files)?,
    })
}

/// The plan in lines, or what is written of the fault.
fn planned(
    alloc: Global,
    operands: &[Operand],
    out: Option<Destination<'_>>,
) -> Result<String, Fail> {
    match plan_of(alloc, operands, out) {
        Ok(FilePlan::StandardOutput { input }) => Ok(input),
        Ok(FilePlan::Files { pages }) => {
            let mut lines = String::new(alloc);
            for page in pages.as_slice() {
                lines.push_str(page.input.as_str())?;
                lines.push_str(" > ")?;
                lines.push_str(page.output.as_str())?;
                if let Some(path) = &page.path_in_folder {
                    lines.push_str(" at ")?;
                    lines.push_str(path.as_str())?;
                }
                lines.push_str("\n")?;
            }
            Ok(lines)
        }
        Err(PlanFault::Memory) => Err(Fail::from(PlanFault::Memory)),
        Err(fault) => Ok(format!(in alloc; "{fault}")?),
    }
}

const OUT: Option<Destination<'static>> = Some(Destination {
    path: "out",
    is_folder: false,
    naming: Naming {
        kind: PageKind::Html,
        extension: "md",
    },
    copies: false,
});

const OF_MARKDOWN: Naming<'static> = Naming {
    kind: PageKind::Markdown,
    extension: "html",
};

#[test]
fn pages_are_planned(rt: HostRuntime) -> Result<(), Fail> {
    let mut operands = Vec::new(rt.alloc());
    operands.push(folder(rt.alloc(), "site", "b.html a/c.HTM a.png é.xhtml")?)?;
    operands.push(file(rt.alloc(), "x/y.txt")?)?;
    let lines = planned(rt.alloc(), operands.as_slice(), OUT)?;
    expect_text(
        "plan",
        lines.as_str(),
        "site/a/c.HTM > out/a/c.md at a/c.HTM\nsite/b.html > out/b.md at b.html\n\
        site/é.xhtml > out/é.md at é.xhtml\nx/y.txt > out/y.txt.md\n",
    )
}

#[test]
fn pages_of_markdown_are_planned(rt: HostRuntime) -> Result<(), Fail> {
    let mut operands = Vec::new(rt.alloc());
    operands.push(folder(rt.alloc(), "site", "b.md a/c.Markdown d.html")?)?;
    operands.push(file(rt.alloc(), "x/e.MD")?)?;
    let out = Destination {
        path: "out",
        is_folder: true,
        naming: OF_MARKDOWN,
        copies: true,
    };
    let lines = planned(rt.alloc(), operands.as_slice(), Some(out))?;
    expect_text(
        "plan",
        lines.as_str(),
        "site/a/c.Markdown > out/a/c.html at a/c.Markdown\nsite/b.md > out/b.html at b.md\n\
        site/d.html > out/d.html at d.html\nx/e.MD > out/e.html\n",
    )
}

/// Files, and what is written of the fault in their plan to `out`.
const FILE_FAULTS: &[(&str, &str)] = &[
    (
        "a/b.html c/b.htm",
        "a/b.html and c/b.htm would both be written to out/b.md",
    ),
    (
        "out/a.md a.html",
        "out/a.md would be written over the input out/a.md",
    ),
    ("a.html a.htm.txt", "none"),
    (
        "a.html ..",
        ".. has no name for a file in a folder: give -o with a file",
    ),
    (
        "./out/../out",
        "out would be written over the input ./out/../out",
    ),
];

fn file_fault(alloc: Global, paths: &str) -> Result<String, Fail> {
    let mut operands = Vec::new(alloc);
    for path in paths.split(' ') {
        operands.push(file(alloc, path)?)?;
    }
    match plan_of(alloc, operands.as_slice(), OUT) {
        Ok(_) => Ok(String::from_str(alloc, "none")?),
        Err(fault) => Ok(format!(in alloc; "{fault}")?),
    }
}

#[test]
fn faults_of_files_name_them(rt: HostRuntime) -> Result<(), Fail> {
    for (paths, want) in FILE_FAULTS {
        let message = file_fault(rt.alloc(), paths)?;
        expect_text(paths, message.as_str(), want)?;
    }
    Ok(())
}

#[test]
fn faults_of_folders_name_them(rt: HostRuntime) -> Result<(), Fail> {
    let mut operands = Vec::new(rt.alloc());
    operands.push(folder(rt.alloc(), "a", "../b.html")?)?;
    let message = planned(rt.alloc(), operands.as_slice(), OUT)?;
    let want = "a/../b.html would be written to out/../b.md, which is outside out";
    expect_text("outside", message.as_str(), want)?;
    let message = planned(rt.alloc(), operands.as_slice(), None)?;
    expect_text(
        "folder",
        message.as_str(),
        "a is a folder, which needs -o with a folder",
    )?;
    operands.push(file(rt.alloc(), "b")?)?;
    let message = planned(rt.alloc(), operands.as_slice(), None)?;
    let want = "a and b are several inputs, which need -o with a folder";
    expect_text("several", message.as_str(), want)
}

#[test]
fn paths_are_compared_and_related(rt: HostRuntime) -> Result<(), Fail> {
    let path = normal_path(rt.alloc(), "/a//b/./../c")?;
    expect_text("normal", path.as_str(), "/a/c")?;
    let way = relative(rt.alloc(), "a/b/c.md", "a/d.md")?;
    expect_that(
        "way",
        way.as_ref().map(|path| path.as_str()) == Some("../d.md"),
    )
}

#[test]
fn pages_are_known_by_their_names(rt: HostRuntime) -> Result<(), Fail> {
    let of_html = Naming {
        kind: PageKind::Html,
        extension: "md",
    };
    let name = with_extension(rt.alloc(), of_html, "a.XHTML")?;
    expect_text("name", name.as_str(), "a.md")?;
    let name = with_extension(rt.alloc(), OF_MARKDOWN, "a.MARKDOWN")?;
    expect_text("name of Markdown", name.as_str(), "a.html")?;
    expect_that(
        "page",
        is_page(PageKind::Html, "a.htm") && !is_page(PageKind::Html, "a.htm.txt"),
    )?;
    expect_that(
        "page of Markdown",
        is_page(PageKind::Markdown, "a.md") && !is_page(PageKind::Markdown, "a.htm"),
    )
}
