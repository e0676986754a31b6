// What a host is answered: the check and the scrub of an image's bytes, each by one number.
#![tactic(auto)]

ghost use Rattle.std.specs.Prelude.{◌≡◌, length, IfOk};
ghost use Rattle.basics.specs.Checks.{fault_of, told};
ghost use Rattle.images.specs.Format.{cell_count};
ghost use Rattle.answers.specs.Answers.{no_image, checked, outcome_of, refusal_in, Comes, Says, Scrubbed, Answers, OneAnswer};
ghost use Rattle.answers.specs.Opens.{Opens};
ghost use Rattle.answers.specs.declared.fault.HostFault.TheVariants.{Image};

mod fault;

use crate::fault::{HostFault, answer};
use fields::rules;
use images::open::{Opened, Raw};
use images::save::save;

// Says whether the bytes are an image: 0, or why they are none.
pub fn check(image: &[u8]) -> u64
    ensures { Says result (checked (no_image image.now)) }
{
    answer(check_image(image))
}

// Scrubs the page whose image the bytes are: the levels risen, and the bytes become the image of the scrubbed page. Where it is
// refused, it answers why, and the bytes are as before.
pub fn scrub(image: &mut [u8]) -> u64
    ensures answers { Answers image.old result image.new }
    ensures only { OneAnswer image.old }
    ensures numbers { Comes (refusal_in result).number }
{
    answer(scrub_image(image))
}

// Opens the image.
fn open_image(image: &[u8]) -> Result<Opened, HostFault>
    ensures fault { fault_of result ≡ told Image (no_image image.now) }
    ensures opened { IfOk result (Opens image.now) }
{
    Ok(Raw::new(image).open()?)
}

// Nothing but whether the bytes are an image.
fn check_image(image: &[u8]) -> Result<u32, HostFault>
    ensures { outcome_of result ≡ checked (no_image image.now) }
{
    open_image(image)?;
    Ok(0)
}

// The levels risen, where the image is scrubbed.
fn scrub_image(image: &mut [u8]) -> Result<u32, HostFault>
    ensures scrubbed { Scrubbed image.old (outcome_of result) image.new }
    ensures only { OneAnswer image.old }
{
    let opened = open_image(image)?;
    one_answer(&opened, image);
    let mut room = [0; 8192];
    let count = opened.page().numbers().cell_count();
    scrub_in(&opened, &mut room[0..count], image)
}

// That a scrub of these bytes answers and leaves nothing else, by the rules of the field's inverses and points.
fn one_answer(opened: &Opened, image: &[u8])
    requires { Opens image.now opened.now }
    ensures { OneAnswer image.now }
{
    rules(opened.page().field());
}

// The same, with room for the cells.
fn scrub_in(opened: &Opened, cells: &mut [u16], image: &mut [u8]) -> Result<u32, HostFault>
    requires opened { Opens image.old opened.now }
    requires room { length cells.old ≡ cell_count opened.now.page.plan.numbers }
    ensures { Scrubbed image.old (outcome_of result) image.new }
{
    opened.cells(cells)?;
    let page = opened.page();
    let (_, risen) = page.scrub(cells)?;
    save(page, cells, image)?;
    Ok(risen)
}
