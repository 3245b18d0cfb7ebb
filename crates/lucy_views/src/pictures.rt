// What is shown of a program that isn't run.
ghost use Rattle.std.specs.Prelude.{◌≡◌, Ok, MatchResult};
ghost use Rattle.lucy_app.specs.World.{bytes_of};
ghost use Rattle.lucy_asking.specs.Asks.{IsPictureWithin};
ghost use Rattle.lucy_views.specs.Meets as spec;
ghost use Rattle.lucy_views.specs.Owes.{OwesPicture};
ghost use Rattle.lucy_views.specs.Failures.{IsOutcome, IsTold, Tellable, unread};

use crate::charts::charts;
use crate::explains::explains;
use crate::failure::Failure;
use crate::freezes::freezes;
use crate::nets::nets;
use crate::pages::pages;
use crate::places::spots;
use crate::shown::{Shown, alone};
use crate::whys::whys;
use lucy_asking::Picture;
use lucy_host::Ops;
use lucy_text::ShelfError;
use std::alloc::Global;

/// The file of a picture.
pub(crate) fn file_of<'a>(picture: Picture<'a>) -> &'a str
    ensures { result.now ≡ spec.picture_file picture.entry }
{
    match picture {
        Picture::Time(words) => words.program.file,
        Picture::Net(words) => words.program.file,
        Picture::Where(words) => words.file,
        Picture::Page(words) => words.program.file,
        Picture::Explain(words) => words.file,
        Picture::Why(words) => words.program.file,
        Picture::Freeze(words) => words.file,
    }
}

// What is shown of a text, or why nothing is.
fn shown(alloc: Global, picture: Picture<'_>, ops: &Ops, text: &[u8]) -> Result<Shown, Failure>
    requires { IsPictureWithin picture }
    ensures outcome { IsOutcome (OwesPicture picture.entry (unread ops.now (Ok text.now))) result }
    ensures told { MatchResult result IsTold Tellable }
{
    match picture {
        Picture::Time(words) => alone(charts(alloc, words, ops, text)),
        Picture::Net(words) => alone(nets(alloc, words, ops, text)),
        Picture::Where(words) => alone(spots(alloc, words, ops, text)),
        Picture::Page(words) => pages(alloc, words, ops, text),
        Picture::Explain(words) => alone(explains(alloc, words, ops, text)),
        Picture::Why(words) => alone(whys(alloc, words, ops, text)),
        Picture::Freeze(words) => alone(freezes(alloc, words, ops, text)),
    }
}

/// What is shown of what was fetched, or why nothing is.
pub(crate) fn outcome_of(
    alloc: Global,
    picture: Picture<'_>,
    ops: &Ops,
    fetched: Result<Vec<u8>, ShelfError>,
) -> Result<Shown, Failure>
    requires { IsPictureWithin picture }
    ensures outcome { IsOutcome (OwesPicture picture.entry (unread ops.now (bytes_of fetched))) result }
    ensures told { MatchResult result IsTold Tellable }
{
    let text = match fetched {
        Ok(text) => text,
        Err(error) => return Err(Failure::from(error)),
    };
    shown(alloc, picture, ops, &text)
}
