//! Items: statements, loops, guards and blocks.

ghost use Rattle.std.specs.Prelude.{◌≡◌, ◌≤◌, IfOk, IfErr};
ghost use Rattle.c_reading.specs.Input.{Reads};
ghost use Rattle.c_reading.specs.Items as spec;
ghost use Rattle.iolb_model.specs.declared.limits.TheConstants.{LOOPS};

use crate::access::{Access, Statement};
use crate::compare::MOST_BRACKETS;
use crate::error::ReadError;
use crate::input::Reader;
use crate::named::Kind;
use crate::tree::{Header, Items};
use crate::values::Accesses;
use c_tokens::TokenKind;
use iolb_model::limits::{GUARDS, LOOPS, STATEMENTS};

/// How many loops there may be around a statement.
const MOST_LOOPS: u8 = LOOPS as u8;

/// Whether a name of this kind may be written.
fn is_array(kind: Option<Kind>) -> bool
    ensures { result ≡ spec.is_array kind }
{
    match kind {
        None | Some(Kind::Array(_, _)) => true,
        Some(Kind::Parameter(_) | Kind::OpenLoop(_) | Kind::ClosedLoop) => false,
    }
}

fn is_end(kind: TokenKind) -> bool
    ensures { result ≡ spec.is_end kind }
{
    matches!(kind, TokenKind::End)
}

impl<'a> Reader<'a> {
    /// An assignment's operator, and whether the reference that is written is read before.
    #[tactic(auto, unfolding(crate::specs::Items::operator))]
    fn operator(&mut self) -> Result<bool, ReadError>
        ensures { Reads (spec.operator self.old) result self.new }
    {
        if self.sees(b"=") {
            self.pass();
            return Ok(false);
        }
        if self.sees(b"+=") || self.sees(b"-=") || self.sees(b"*=") || self.sees(b"/=") {
            self.pass();
            return Ok(true);
        }
        Err(ReadError::Fault(self.refusal()))
    }

    /// The references that are read first.
    fn first_reads(&self, updates: bool, writes: &Access) -> Result<Accesses, ReadError>
        ensures value { IfOk result (λ reads. reads ≡ spec.first_reads updates writes.now) }
        ensures memory { IfErr result (λ e. e ≡ ReadError.Memory) }
    {
        let mut reads = Accesses::new(self.alloc());
        if updates {
            reads.push(writes.try_clone(self.alloc())?)?;
        }
        Ok(reads)
    }

    /// An assignment.
    #[tactic(auto, unfolding(crate::specs::Items::assign))]
    fn assign(&mut self, brackets: u8) -> Result<Statement, ReadError>
        ensures { Reads (spec.assign brackets self.old) result self.new }
    {
        let writes = self.access(brackets)?;
        let updates = self.operator()?;
        let reads = self.first_reads(updates, &writes)?;
        let reads = self.value(brackets, reads)?;
        Ok(Statement::new(writes, reads.into_vec()))
    }

    /// A statement, of which there are so many then.
    #[tactic(auto, unfolding(crate::specs::Items::counted, crate::specs::Items::count_statements))]
    fn counted(&mut self, brackets: u8, count: u8, items: Items) -> Result<Items, ReadError>
        ensures { Reads (spec.counted brackets count items self.old) result self.new }
    {
        let statement = self.assign(brackets)?;
        self.set_statements(count);
        self.expect(b";")?;
        let mut items = items;
        items.push_statement(statement)?;
        Ok(items)
    }

    /// A statement, where there aren't too many.
    #[tactic(auto, unfolding(crate::specs::Items::statement))]
    fn statement(&mut self, brackets: u8, items: Items) -> Result<Items, ReadError>
        ensures { Reads (spec.statement brackets items self.old) result self.new }
    {
        if !is_array(self.kind_of(self.spelling())) {
            return Err(self.fault(6));
        }
        let count = self.statements();
        if usize::from(count) >= STATEMENTS {
            return Err(self.fault(10));
        }
        self.counted(brackets, count + 1, items)
    }

    /// A loop's header.
    #[tactic(auto, unfolding(crate::specs::Items::header))]
    fn header(&mut self, brackets: u8) -> Result<Header, ReadError>
        ensures { Reads (spec.header brackets self.old) result self.new }
    {
        self.bracket_behind(brackets)?;
        self.skip_int();
        self.header_of(brackets - 1, self.spelling())
    }

    /// A loop, where so many loops, rows of guards and brackets may still be opened.
    #[cycle(item)]
    #[tactic(auto, using(crate::proofs::Turns::loops_none, crate::proofs::Turns::loops_some), unfolding(crate::specs::Items::loops))]
    fn for_loop(
        &mut self,
        loops: u8,
        room: usize,
        brackets: u8,
        items: Items,
    ) -> Result<Items, ReadError>
        requires { loops ≤ LOOPS }
        ensures { Reads (spec.loops loops room brackets items self.old) result self.new }
    {
        if loops == 0 {
            return Err(self.fault(9));
        }
        let header = self.header(brackets)?;
        let at = header.name;
        let inner = loops - 1;
        self.set_kind(at, Kind::OpenLoop(MOST_LOOPS - 1 - inner));
        let body = self.item(inner, room, brackets, Items::new(self.alloc()))?;
        self.set_kind(at, Kind::ClosedLoop);
        let mut items = items;
        items.push_loop(header, body)?;
        Ok(items)
    }

    /// A guard, where so many loops, rows of guards and brackets may still be opened.
    #[cycle(item)]
    #[tactic(auto, using(crate::proofs::Turns::guards_refused, crate::proofs::Turns::guards_read))]
    fn guard(
        &mut self,
        loops: u8,
        room: usize,
        brackets: u8,
        items: Items,
    ) -> Result<Items, ReadError>
        requires { loops ≤ LOOPS }
        ensures { Reads (spec.guards (spec.loops loops) room brackets items self.old) result self.new }
    {
        let rows = self.conditions(brackets, room)?;
        let inner = room - rows.len();
        let body = self.item(loops, inner, brackets, Items::new(self.alloc()))?;
        self.no_else()?;
        let mut items = items;
        items.push_guard(rows, body)?;
        Ok(items)
    }

    /// Items up to the bracket that closes their block, behind the one that opens it.
    #[cycle(item)]
    #[tactic(auto, using(crate::proofs::Turns::turns), unfolding(crate::specs::Items::block_items, crate::specs::Items::all_block_items))]
    fn block_items(
        &mut self,
        loops: u8,
        room: usize,
        brackets: u8,
        items: Items,
    ) -> Result<Items, ReadError>
        requires { loops ≤ LOOPS }
        ensures { Reads (spec.all_block_items (spec.item loops room brackets) items self.old) result self.new }
    {
        let mut items = items;
        for _turn in 0..self.left() {
            if self.takes(b"}") {
                return Ok(items);
            }
            items = self.item(loops, room, brackets, items)?;
        }
        Err(ReadError::Fault(self.refusal()))
    }

    /// A block, where so many loops, rows of guards and brackets may still be opened.
    #[cycle(item)]
    #[tactic(auto, using(crate::proofs::Turns::block_none, crate::proofs::Turns::block_some), unfolding(crate::specs::Items::block))]
    fn block(
        &mut self,
        loops: u8,
        room: usize,
        brackets: u8,
        items: Items,
    ) -> Result<Items, ReadError>
        requires { loops ≤ LOOPS }
        ensures { Reads (spec.block (spec.loops loops room) (spec.guards (spec.loops loops) room) brackets items self.old) result self.new }
    {
        if brackets == 0 {
            return Err(self.fault(9));
        }
        self.pass();
        self.block_items(loops, room, brackets - 1, items)
    }

    /// An item behind these, where so many loops, rows of guards and brackets may still be opened.
    #[cycle(item)]
    #[tactic(auto, using(crate::proofs::Turns::item_is), unfolding(crate::specs::Items::item_over, crate::specs::Items::item_by))]
    fn item(
        &mut self,
        loops: u8,
        room: usize,
        brackets: u8,
        items: Items,
    ) -> Result<Items, ReadError>
        requires { loops ≤ LOOPS }
        ensures { Reads (spec.item loops room brackets items self.old) result self.new }
    {
        if self.takes(b";") {
            return Ok(items);
        }
        if self.sees(b"{") {
            return self.block(loops, room, brackets, items);
        }
        if self.sees(b"for") {
            return self.for_loop(loops, room, brackets, items);
        }
        if self.sees(b"if") {
            return self.guard(loops, room, brackets, items);
        }
        match self.kind() {
            TokenKind::Name => self.statement(brackets, items),
            _ => Err(ReadError::Fault(self.refusal())),
        }
    }

    /// Items up to the closing line.
    #[tactic(auto, using(crate::proofs::Turns::turns), unfolding(crate::specs::Items::items, crate::specs::Items::all_items))]
    pub fn items(&mut self) -> Result<Items, ReadError>
        ensures { Reads (spec.all_items self.old) result self.new }
    {
        let mut items = Items::new(self.alloc());
        for _turn in 0..self.left() {
            if is_end(self.kind()) {
                return Ok(items);
            }
            items = self.item(MOST_LOOPS, GUARDS, MOST_BRACKETS, items)?;
        }
        Err(ReadError::Fault(self.refusal()))
    }
}
