//! The state that drawings depend on, which can be saved.

ghost use Rattle.std.specs.Prelude.{◌≡◌};
ghost use Rattle.mapping.specs.PageMap.{map_numbers};
ghost use Rattle.dc_stack.specs.State.{start_dc};

use crate::clip::Clip;
use crate::modes::Modes;
use crate::selected::Selected;
use draw_ops::Handle;
use mapping::{PageMap, Point};

/// What drawings depend on, and what SAVEDC copies: the selected objects, modes and colours, the page map, the current
/// position in page units, and the clip.
#[derive(Clone, Copy, Debug)]
pub struct Dc<'a> {
    pub selected: Selected<'a>,
    pub modes: Modes,
    pub map: PageMap,
    pub position: Point,
    pub clip: Clip,
}

impl<'a> Dc<'a> {
    ghost use Rattle.dc_stack.specs.Clip.{unclipped};
    ghost use Rattle.dc_stack.specs.Deleting.{dc_without};
    ghost use Rattle.dc_stack.specs.Values.{dc_value, placed_value};

    /// This state before the first record of a file with this initial map.
    pub(crate) fn start(map: PageMap) -> Dc<'a>
        ensures value { dc_value result ≡ start_dc (map_numbers map) }
        ensures placed { placed_value result.clip ≡ unclipped }
    {
        Dc {
            selected: Selected::stock(),
            modes: Modes::start(),
            map,
            position: Point { x: 0, y: 0 },
            clip: Clip::none(),
        }
    }

    /// Drops this index. What has it selected keeps its values.
    pub(crate) fn let_go(&mut self, handle: Handle)
        ensures value { dc_value self.new ≡ dc_without handle.0 (dc_value self.old) }
        ensures clip { self.new.clip ≡ self.old.clip }
    {
        self.selected.let_go(handle);
    }
}
