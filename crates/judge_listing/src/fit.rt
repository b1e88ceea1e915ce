// The listing of a fit mapping.
ghost use Rattle.answers.specs.Answers.{Listed};
ghost use Rattle.answers.specs.unlisted.Unlisted.{listed_of};
ghost use Rattle.judge_listing.specs.fit.FitText.{fit_text};

use answers::unlisted::NoRoom;

// How many bytes the listing has: the head, and `fit` in it.
const FIT_LISTING: usize = crate::VERDICT_HEAD + text::words::FIT.len();

// The listing of a fit mapping, if there is room for it.
pub fn fit_listing(out: &mut [u8]) -> Result<usize, NoRoom>
    ensures { Listed fit_text out.old out.new (listed_of result) }
{
    if out.len() < FIT_LISTING {
        return Err(NoRoom {
            needed: FIT_LISTING,
        });
    }
    let end = crate::put_verdict(out, text::words::FIT);
    Ok(end)
}
