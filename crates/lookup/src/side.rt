// One of two states that are compared, behind its checks: with its spare area and its device numbers.
ghost use Rattle.front.specs.Read.{numbers_of};
ghost use Rattle.state.specs.Reading.{read_state};
ghost use Rattle.state.specs.Shaped.{Passed};

use front::Numbers;

#[derive(Clone, Copy)]
pub struct Side<'a> {
    pub state: &'a [u8],
    pub spare: &'a [u32],
    pub d: Numbers,
    ghost passed: { Passed (numbers_of d) (read_state state.now) spare.now },
}
