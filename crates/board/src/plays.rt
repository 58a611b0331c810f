// What each kind of step tells, and how seats are split and joined.
use crate::blocks::Coded;
use crate::exchange::Replaces;
use crate::met::Met;
use crate::pages::Paged;
use crate::recall::{Pairs, Returns};
use crate::regions::{Completed, Ended, Marked};
use crate::steps::{Answers, Shown};
use crate::swept::Sweeps;
use crate::tree::{Claims, Keeps, Reaches};
use atomic_table::{Join, Play, Split};
use board_core::View;
use std::marker::PhantomData;

pub(crate) struct TakeLock;

impl Play<(), View> for TakeLock {
    ghost use Rattle.board_core.specs.Steps.{Takes};

    ghost then = { Takes };
}

pub(crate) struct FreeLock<E> {
    answers: PhantomData<E>,
}

impl<E: Answers> Play<(), View> for FreeLock<E> {
    ghost use Rattle.board_core.specs.Steps.{Frees};

    ghost then = { Frees E.entries };
}

pub(crate) struct Answer<E> {
    answers: PhantomData<E>,
}

impl<E: Answers> Play<(), View> for Answer<E> {
    ghost use Rattle.board_core.specs.Steps.{Answers};
    ghost use Rattle.board_core.specs.Boards.{OnBoard};

    ghost then = { OnBoard (Answers E.entries) };
}

pub(crate) struct LoadFront;

impl Play<(), View> for LoadFront {
    ghost use Rattle.board_core.specs.Steps.{LoadsFront};

    ghost then = { LoadsFront };
}

pub(crate) struct LoadLogWord;

impl Play<(), View> for LoadLogWord {
    ghost use Rattle.board_core.specs.Steps.{LoadsLog};

    ghost then = { LoadsLog };
}

pub(crate) struct LoadHead;

impl Play<(), View> for LoadHead {
    ghost use Rattle.board_core.specs.Steps.{LoadsHead};

    ghost then = { LoadsHead };
}

pub(crate) struct LoadMark;

impl Play<(), View> for LoadMark {
    ghost use Rattle.board_core.specs.Steps.{LoadsMark};

    ghost then = { LoadsMark };
}

pub(crate) struct LoadFact;

impl Play<(), View> for LoadFact {
    ghost use Rattle.board_core.specs.Steps.{LoadsFact};

    ghost then = { LoadsFact };
}

pub(crate) struct LoadCode<C> {
    code: PhantomData<C>,
}

impl<C: Coded> Play<(), View> for LoadCode<C> {
    ghost use Rattle.board_core.specs.Steps.{LoadsCode};

    ghost then = { LoadsCode C.loaded_row C.loaded_code };
}

pub(crate) struct StoreWord;

impl Play<(), View> for StoreWord {
    ghost use Rattle.std.specs.Prelude.{[]};
    ghost use Rattle.board_core.specs.Steps.{Stores};

    ghost then = { Stores [] };
}

pub(crate) struct SealBlock<B> {
    block: PhantomData<B>,
}

impl<B: Completed> Play<(), View> for SealBlock<B> {
    ghost use Rattle.std.specs.Prelude.{[], ◌∷◌};
    ghost use Rattle.board_core.specs.Steps.{Stores};

    ghost then = { Stores (B.block ∷ []) };
}

pub(crate) struct StoreShown<B> {
    block: PhantomData<B>,
}

impl<B: Marked> Play<(), View> for StoreShown<B> {
    ghost use Rattle.board_core.specs.Steps.{Shows};

    ghost then = { Shows B.block };
}

pub(crate) struct StoreEnded<E> {
    ending: PhantomData<E>,
}

impl<E: Ended> Play<(), View> for StoreEnded<E> {
    ghost use Rattle.board_core.specs.Steps.{Ends};

    ghost then = { Ends E.ending };
}

pub(crate) struct StoreLogWord;

impl Play<(), View> for StoreLogWord {
    ghost use Rattle.board_core.specs.Steps.{Logs};

    ghost then = { Logs };
}

pub(crate) struct ShowEvent<E> {
    event: PhantomData<E>,
}

impl<E: Shown> Play<(), View> for ShowEvent<E> {
    ghost use Rattle.board_core.specs.Steps.{ShowsEvent};

    ghost then = { ShowsEvent E.event };
}

pub(crate) struct LoadEpoch;

impl Play<(), View> for LoadEpoch {
    ghost use Rattle.board_core.specs.Steps.{LoadsEpoch};

    ghost then = { LoadsEpoch };
}

pub(crate) struct AdvanceEpoch;

impl Play<(), View> for AdvanceEpoch {
    ghost use Rattle.board_core.specs.Steps.{Advances};

    ghost then = { Advances };
}

pub(crate) struct Pin;

impl Play<(), View> for Pin {
    ghost use Rattle.board_core.specs.Steps.{Pins};

    ghost then = { Pins };
}

pub(crate) struct Unpin;

impl Play<(), View> for Unpin {
    ghost use Rattle.board_core.specs.Steps.{Unpins};

    ghost then = { Unpins };
}

pub(crate) struct PassCaller;

impl Play<(), View> for PassCaller {
    ghost use Rattle.board_core.specs.Steps.{Passes};

    ghost then = { Passes };
}

pub(crate) struct LoadState<P> {
    page: PhantomData<P>,
}

impl<P: Paged> Play<(), View> for LoadState<P> {
    ghost use Rattle.board_core.specs.Steps.{LoadsState};

    ghost then = { LoadsState P.page };
}

pub(crate) struct TakePage<P> {
    page: PhantomData<P>,
}

impl<P: Paged> Play<(), View> for TakePage<P> {
    ghost use Rattle.board_core.specs.Steps.{TakesPage};

    ghost then = { TakesPage P.page };
}

pub(crate) struct RetirePage<P> {
    page: PhantomData<P>,
}

impl<P: Paged> Play<(), View> for RetirePage<P> {
    ghost use Rattle.board_core.specs.Steps.{Retires};

    ghost then = { Retires P.page };
}

pub(crate) struct LoadOwnCode<C> {
    code: PhantomData<C>,
}

impl<C: Coded> Play<(), View> for LoadOwnCode<C> {
    ghost use Rattle.board_core.specs.Steps.{LoadsOwnCode};

    ghost then = { LoadsOwnCode C.loaded_row C.loaded_code };
}

pub(crate) struct BeginRow<C> {
    code: PhantomData<C>,
}

impl<C: Coded> Play<(), View> for BeginRow<C> {
    ghost use Rattle.board_core.specs.Steps.{BeginsRow};

    ghost then = { BeginsRow C.loaded_row C.loaded_code };
}

pub(crate) struct StoreOwn<K> {
    word: PhantomData<K>,
}

impl<K: Keeps> Play<(), View> for StoreOwn<K> {
    ghost use Rattle.board_core.specs.Steps.{StoresOwn};

    ghost then = { StoresOwn K.page K.place };
}

pub(crate) struct BeginWalk;

impl Play<(), View> for BeginWalk {
    ghost use Rattle.board_core.specs.Steps.{BeginsWalk};

    ghost then = { BeginsWalk };
}

pub(crate) struct LoadHeader<R> {
    page: PhantomData<R>,
}

impl<R: Reaches> Play<(), View> for LoadHeader<R> {
    ghost use Rattle.board_core.specs.Steps.{LoadsHeader};

    ghost then = { LoadsHeader R.number };
}

pub(crate) struct LoadSlot<R> {
    page: PhantomData<R>,
}

impl<R: Reaches> Play<(), View> for LoadSlot<R> {
    ghost use Rattle.board_core.specs.Steps.{LoadsSlot};
    ghost use Rattle.board_core.specs.Boards.{OnBoard};

    ghost then = { OnBoard (LoadsSlot R.number) };
}

pub(crate) struct LoadLink<R> {
    page: PhantomData<R>,
}

impl<R: Reaches> Play<(), View> for LoadLink<R> {
    ghost use Rattle.board_core.specs.Steps.{LoadsLink};
    ghost use Rattle.board_core.specs.Boards.{OnBoard};

    ghost then = { OnBoard (LoadsLink R.number R.index R.code) };
}

pub(crate) struct LoadMore<R> {
    page: PhantomData<R>,
}

impl<R: Reaches> Play<(), View> for LoadMore<R> {
    ghost use Rattle.board_core.specs.Steps.{LoadsMore};
    ghost use Rattle.board_core.specs.Boards.{OnBoard};

    ghost then = { OnBoard (LoadsMore R.number) };
}

pub(crate) struct PassLeaf<R> {
    page: PhantomData<R>,
}

impl<R: Reaches> Play<(), View> for PassLeaf<R> {
    ghost use Rattle.board_core.specs.Passing.{PassesLeaf};

    ghost then = { PassesLeaf R.number };
}

pub(crate) struct KeepLeaves<P> {
    leaves: PhantomData<P>,
}

impl<P: Pairs> Play<(), View> for KeepLeaves<P> {
    ghost use Rattle.board_core.specs.Passing.{KeepsLeaves};

    ghost then = { KeepsLeaves P.first P.last };
}

pub(crate) struct Recall<R> {
    leaf: PhantomData<R>,
}

impl<R: Returns> Play<(), View> for Recall<R> {
    ghost use Rattle.board_core.specs.Passing.{Recalls};

    ghost then = { Recalls R.number R.to };
}

pub(crate) struct ClaimWord<C> {
    claim: PhantomData<C>,
}

impl<C: Claims> Play<(), View> for ClaimWord<C> {
    ghost use Rattle.board_core.specs.Steps.{ClaimsWord};

    ghost then = { ClaimsWord C.claim };
}

pub(crate) struct ExchangeLeaf<X> {
    exchange: PhantomData<X>,
}

impl<X: Replaces> Play<(), View> for ExchangeLeaf<X> {
    ghost use Rattle.board_core.specs.Steps.{ExchangesLeaf};

    ghost then = { ExchangesLeaf X.exchange };
}

pub(crate) struct LoadOwnHead;

impl Play<(), View> for LoadOwnHead {
    ghost use Rattle.board_core.specs.Steps.{LoadsOwnHead};

    ghost then = { λ s m found n. LoadsOwnHead s.word s m found n };
}

pub(crate) struct LoadEntry<E> {
    entry: PhantomData<E>,
}

impl<E: Met> Play<(), View> for LoadEntry<E> {
    ghost use Rattle.board_core.specs.Met.{LoadsEntry};

    ghost then = { LoadsEntry E.number E.index };
}

pub(crate) struct LoadMetHead<E> {
    entry: PhantomData<E>,
}

impl<E: Met> Play<(), View> for LoadMetHead<E> {
    ghost use Rattle.board_core.specs.Met.{LoadsMetHead};

    ghost then = { LoadsMetHead E.entry };
}

pub(crate) struct LoadMetCode<E> {
    entry: PhantomData<E>,
}

impl<E: Met> Play<(), View> for LoadMetCode<E> {
    ghost use Rattle.board_core.specs.Met.{LoadsMetCode};

    ghost then = { LoadsMetCode E.entry E.code };
}

pub(crate) struct NoteSwept<S> {
    rows: PhantomData<S>,
}

impl<S: Sweeps> Play<(), View> for NoteSwept<S> {
    ghost use Rattle.std.specs.Prelude.{[], ◌∷◌};
    ghost use Rattle.board_core.specs.declared.entry.Entry.TheVariants.{Swept};
    ghost use Rattle.board_core.specs.Steps.{Answers};
    ghost use Rattle.board_core.specs.Boards.{OnBoard};

    ghost then = { OnBoard (Answers (Swept S.need S.front S.rows ∷ [])) };
}

/// A note has seen what the caller has.
pub(crate) struct Copied;

impl Split<View> for Copied {
    ghost use Rattle.board_core.specs.Accounts.{view, account};
    ghost use Rattle.board_core.specs.declared.account.Who.TheVariants.{Note};

    ghost left = { λ v. v };

    ghost right = { λ v. view v.shape (account Note v.me.log.seen) };
}

/// The opener makes its next caller.
pub(crate) struct Next;

impl Split<View> for Next {
    ghost use Rattle.board_core.specs.Accounts.{view, with_me, account, caller_after, made_by};
    ghost use Rattle.board_core.specs.After.{after_made};

    ghost left = { λ v. with_me v (after_made v.me) };

    ghost right = { λ v. view v.shape (account (caller_after v.shape (made_by v.me.who)) 0) };
}

pub(crate) struct Heard;

impl Join<View> for Heard {
    ghost use Rattle.board_core.specs.Accounts.{with_me, gone};
    ghost use Rattle.board_core.specs.After.{after_hear};

    ghost both = { λ v w. with_me v (after_hear v.me w.me.log.seen) };

    ghost spent = { gone };
}

/// The account of the second is kept.
pub(crate) struct Kept;

impl Join<View> for Kept {
    ghost use Rattle.board_core.specs.Accounts.{keeping, gone};

    ghost both = { keeping };

    ghost spent = { gone };
}
