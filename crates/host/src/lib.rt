// The static library that a host program, in C or in Rust, is linked with: two functions on the bytes of an image.
#![tactic(auto)]

ghost use Rattle.answers.specs.Answers.{no_image, checked, refusal_in, Comes, Says, Answers, OneAnswer};

// Says whether the bytes are an image: 0, or why they are none.
#[unsafe(no_mangle)]
pub extern "C" fn almp_check(image: &[u8]) -> u64
    ensures { Says result (checked (no_image image.now)) }
{
    answers::check(image)
}

// Scrubs the page whose image the bytes are: the levels risen, and the bytes become the image of the scrubbed page. Where it is
// refused, it answers why, and the bytes are as before.
#[unsafe(no_mangle)]
pub extern "C" fn almp_scrub(image: &mut [u8]) -> u64
    ensures answers { Answers image.old result image.new }
    ensures only { OneAnswer image.old }
    ensures numbers { Comes (refusal_in result).number }
{
    answers::scrub(image)
}
