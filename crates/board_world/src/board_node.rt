//! A board with its registry.
ghost use Rattle.std.specs.Prelude.{◌≡◌, ◌++◌, IfOk, OnOk};
ghost use Rattle.node_base.specs.Setups.{IsSetup};
ghost use Rattle.board_world.specs.BoardTurns.{board_node_start, mail_of, mail_in, board_node_give, give_all, board_node_take};

use crate::Replica;
use board::{Board, BoardPacket, In, Out};
use script_text::Script;
use std::alloc::Global;
use wire_msg::SharedPacket;
use xfs_base::{Crosses, List, Mem};

/// A board with its registry, to which it applies what it holds for done.
pub struct BoardNode {
    /// The board.
    pub board: Board,
    /// Its registry.
    pub registry: Replica,
}

impl Drop for BoardNode {
    fn drop(self) {
        let BoardNode { board, registry } = self;
        drop(board);
        drop(registry);
    }
}

impl Crosses for BoardNode {}

// What a board gives goes to another board, or is applied to its registry.
fn give(
    alloc: Global,
    registry: &mut Replica,
    items: usize,
    mail: &mut List<BoardPacket>,
    handed: &mut List<SharedPacket>,
    out: Out,
) -> Mem<()>
    ensures registry { OnOk result (registry.new ≡ (board_node_give items registry.old out).state) }
    ensures handed { OnOk result (handed.new ≡ handed.old ++ (board_node_give items registry.old out).outs) }
    ensures mail { OnOk result (mail.new ≡ mail.old ++ mail_of out) }
{
    match out {
        Out::Send(packet) => mail.push(packet),
        Out::Apply(command) => registry.apply(alloc, items, handed, &command),
    }
}

fn give_all(
    alloc: Global,
    registry: &mut Replica,
    items: usize,
    mail: &mut List<BoardPacket>,
    handed: &mut List<SharedPacket>,
    outs: List<Out>,
) -> Mem<()>
    ensures registry { OnOk result (registry.new ≡ (give_all items registry.old outs).state) }
    ensures handed { OnOk result (handed.new ≡ handed.old ++ (give_all items registry.old outs).outs) }
    ensures mail { OnOk result (mail.new ≡ mail.old ++ mail_in outs) }
{
    for out in outs.into_vec() {
        give(alloc, registry, items, mail, handed, out)?;
    }
    Ok(())
}

impl BoardNode {
    /// The board of this number before the first event of a script.
    pub fn start(alloc: Global, number: u8, script: &Script) -> Mem<BoardNode>
        requires { IsSetup script.now.setup }
        ensures { IfOk result (λ node. node ≡ board_node_start script.now number) }
    {
        Ok(BoardNode {
            board: Board::start(alloc, number),
            registry: Replica::start(alloc, script)?,
        })
    }

    /// What the board and its registry do on an input, in a run in which the registry has so many items. What goes to
    /// other boards is put behind the mail, and what the registry sends behind what was handed on.
    #[tactic(auto, unfolding(crate::specs::BoardTurns::board_node_take))]
    pub fn take(
        &mut self,
        alloc: Global,
        items: usize,
        mail: &mut List<BoardPacket>,
        handed: &mut List<SharedPacket>,
        input: In,
    ) -> Mem<()>
        ensures node { OnOk result (self.new ≡ (board_node_take items self.old input).node) }
        ensures mail { OnOk result (mail.new ≡ mail.old ++ (board_node_take items self.old input).mail) }
        ensures handed { OnOk result (handed.new ≡ handed.old ++ (board_node_take items self.old input).handed) }
    {
        let outs = self.board.take(alloc, input)?;
        give_all(alloc, &mut self.registry, items, mail, handed, outs)
    }
}
