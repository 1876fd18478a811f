//! The tree, kept as the parent of each object number that was ever used.
ghost use Rattle.std.specs.Prelude.{◌≡◌, ℕ, ◌+◌, ◌<◌, ◌≤◌, ◌↔◌, ◌≢◌, max, not, false, IsTrue, IfOk, OnOk, OnErr};
ghost use Rattle.std.specs.Prelude.{IsErrOf};
ghost use Rattle.std.specs.FinMap as map;
ghost use Rattle.mls_tables.specs.declared.limits.TheConstants.{MAX_OBJECTS};
ghost use Rattle.mls_tree.specs.Tree.{is_active, IsTree, HasNext, with_parents, is_inferior, children, inferiors};
ghost use Rattle.mls_tree.specs.declared.tree.TreeFault.TheVariants.{Full, Memory};

use crate::fields;
use crate::numbers::Numbers;
use crate::profile::Profile;
use mls_tables::{Lists, MAX_OBJECTS, ObjectId};
use std::alloc::{AllocError, Allocator, Global};
use std::marker::Model;

/// Why an object was not added. The tree is then unchanged.
#[derive(Clone, Copy, Debug, PartialEq, Eq)]
pub enum TreeFault {
    /// There is no next number: in profile 1 each of the 4,096 was given out, in profile 2 each is active.
    Full,
    /// Allocation failed.
    Memory,
}

impl From<AllocError> for TreeFault {
    ghost from_gives = { λ _ e. e ≡ Memory };

    fn from(_e: AllocError) -> TreeFault {
        TreeFault::Memory
    }
}

/// The tree of objects. The root is object 0, each other active object has an active parent, and by
/// parent steps reaches the root. There are 4,096 numbers; the profile says whether one is used again.
#[derive(Drop)]
pub struct Tree<A: Allocator = Global> {
    profile: Profile,
    /// A place for each number that was ever used.
    parents: Vec<Option<ObjectId>, A>,
    children: Lists<ObjectId, A>,
    active: Numbers<A>,
}

impl<A: Allocator> Model for Tree<A> {
    ghost use Rattle.mls_tree.specs.Tree.{Hierarchy, hierarchy_code};
    ghost use Rattle.mls_tree.specs.Kept.{hierarchy_of, IsKept};

    ghost Value = { Hierarchy };

    ghost coded = { hierarchy_code };

    ghost view = { λ a. hierarchy_of a.profile a.parents.items };

    ghost invariant = { λ a. IsKept a.parents.items a.children.lists a.active };
}

impl<A: Allocator> Tree<A> {
    /// Whether numbers are used again.
    pub fn profile(&self) -> Profile
        ensures { result ≡ self.now.profile }
    {
        self.profile
    }

    /// The number that the next object will have, 4,096 where there is none: in profile 1 the least that no object had
    /// yet, in profile 2 the least that isn't active.
    pub fn next(&self) -> u16
        ensures number { result ≡ self.now.next }
        ensures tree { IsTree self.now.parent (is_active self.now.parent) }
        ensures right { HasNext self.now.profile (is_active self.now.parent) self.now.next }
    {
        match self.profile {
            Profile::One => self.parents.len() as u16,
            Profile::Two => self.active.least_free(),
        }
    }

    /// That the active objects are a tree and the next number is that of the profile, which is so of every tree.
    pub fn agrees(&self)
        ensures tree { IsTree self.now.parent (is_active self.now.parent) }
        ensures right { HasNext self.now.profile (is_active self.now.parent) self.now.next }
    {
        let _ = self.next();
    }

    /// A number above all that are active: how many were ever used.
    pub fn places(&self) -> u16
        ensures active { (o : ℕ) → IsTrue (is_active self.now.parent o) → o < result }
        ensures few { result ≤ MAX_OBJECTS }
    {
        self.parents.len() as u16
    }

    /// Whether the object is active. Any number may be asked for.
    pub fn is_active(&self, o: ObjectId) -> bool
        ensures { result ≡ is_active self.now.parent o }
    {
        o.number() == 0 || self.parent(o).is_some()
    }

    /// The parent of an object: none for the root, and for what is not active.
    pub fn parent(&self, o: ObjectId) -> Option<ObjectId>
        ensures { result ≡ map.get self.now.parent o }
    {
        match self.parents.get(o.number() as usize) {
            Some(parent) => *parent,
            None => None,
        }
    }

    /// The children of an active object, ascending.
    pub fn children(&self, o: ObjectId) -> &[ObjectId]
        requires { IsTrue (is_active self.now.parent o) }
        ensures { result.now ≡ children self.now.parent o }
    {
        self.children.list(o.number() as usize)
    }

    /// Adds an object below an active one, and returns its number, which is the next.
    ///
    /// # Errors
    /// `Full` where there is no next number, `Memory` where allocation fails. The tree is then unchanged.
    pub fn add(&mut self, parent: ObjectId) -> Result<ObjectId, TreeFault>
        requires { IsTrue (is_active self.old.parent parent) }
        ensures number { IfOk result (λ o. o ≡ self.old.next) }
        ensures ok { OnOk result (self.new ≡
            with_parents self.old (map.insert self.old.parent self.old.next parent) (self.old.next + 1)) }
        ensures full { IsErrOf result Full ↔ (self.old.next ≡ MAX_OBJECTS) }
        ensures err { OnErr result (self.new ≡ self.old) }
    {
        let next = self.next();
        if next >= MAX_OBJECTS {
            return Err(TreeFault::Full);
        }
        self.children.ensure_list(next as usize)?;
        fields::enter(&mut self.parents, &mut self.children, parent, next)?;
        self.active.insert(next);
        Ok(ObjectId::new(next))
    }

    /// Takes the numbers below one as used. In profile 1 none of them is given out any more; in profile 2 nothing is
    /// seen of it.
    ///
    /// # Errors
    /// Where allocation fails. The tree is then unchanged.
    pub fn skip_to(&mut self, end: u16) -> Result<(), AllocError>
        requires { end ≤ MAX_OBJECTS }
        ensures ok { OnOk result (self.new ≡ with_parents self.old self.old.parent (max self.old.next end)) }
        ensures err { OnErr result (self.new ≡ self.old) }
    {
        fields::make_places(&mut self.parents, &mut self.children, end)?;
        Ok(())
    }

    /// Adds an object of a number that isn't active below an active one. In profile 1 the next number is then above its
    /// own.
    ///
    /// # Errors
    /// Where allocation fails. The tree is then unchanged.
    pub fn add_at(&mut self, o: ObjectId, parent: ObjectId) -> Result<(), AllocError>
        requires room { o < MAX_OBJECTS }
        requires free { is_active self.old.parent o ≡ false }
        requires parent { IsTrue (is_active self.old.parent parent) }
        ensures ok { OnOk result (self.new ≡
            with_parents self.old (map.insert self.old.parent o parent) (max self.old.next (o + 1))) }
        ensures err { OnErr result (self.new ≡ self.old) }
    {
        let (count, number) = (self.parents.len(), o.number());
        fields::make_places(&mut self.parents, &mut self.children, number + 1)?;
        match fields::enter(&mut self.parents, &mut self.children, parent, number) {
            Ok(()) => {
                self.active.insert(number);
                Ok(())
            }
            Err(AllocError) => {
                self.parents.truncate(count);
                Err(AllocError)
            }
        }
    }

    /// The inferiors of an active object, ascending: itself and all below it.
    ///
    /// # Errors
    /// Where allocation fails.
    pub fn inferiors(&self, alloc: A, o: ObjectId) -> Result<Vec<ObjectId, A>, AllocError>
        requires { IsTrue (is_active self.now.parent o) }
        ensures { IfOk result (λ group. group.items ≡ inferiors self.now.parent o) }
    {
        let mut group = Vec::new(alloc);
        self.list_inferiors(o, &mut group)?;
        Ok(group)
    }

    /// Lists the inferiors of an active object, ascending, in place of what the list had.
    ///
    /// # Errors
    /// Where allocation fails. The list then has some of them.
    pub fn list_inferiors<B: Allocator>(
        &self,
        o: ObjectId,
        group: &mut Vec<ObjectId, B>,
    ) -> Result<(), AllocError>
        requires { IsTrue (is_active self.now.parent o) }
        ensures { OnOk result (group.new.items ≡ inferiors self.now.parent o) }
    {
        group.clear();
        group.push(o)?;
        let mut at = 0;
        while at < group.len() {
            fields::add_children(&self.children, group, at)?;
            at += 1;
        }
        group.sort_unstable_by_key(|x| x.number());
        Ok(())
    }

    /// Takes out the inferiors of an active object that isn't the root. In profile 1 their numbers aren't given out
    /// again, in profile 2 they are.
    pub fn remove_group(&mut self, group: &[ObjectId])
        requires { (o : ℕ) × IsTrue (is_active self.old.parent o) × (o ≢ 0)
            × (group.now ≡ inferiors self.old.parent o) }
        ensures { (o : ℕ) → group.now ≡ inferiors self.old.parent o → self.new ≡
            with_parents self.old
            (map.retain_keys self.old.parent (λ x. not (is_inferior self.old.parent x o))) self.old.next }
    {
        fields::clear_each(&mut self.children, group);
        fields::discard_each(&mut self.children, &self.parents, group);
        fields::forget_each(&mut self.parents, group);
        fields::free_each(&mut self.active, group);
    }
}

impl<A: Allocator + Clone> Tree<A> {
    /// The tree of the root alone.
    ///
    /// # Errors
    /// Where allocation fails.
    pub fn new(alloc: A, profile: Profile) -> Result<Tree<A>, AllocError>
        ensures { IfOk result (λ t. t ≡ record { profile = profile; parent = map.empty; next = 1 }) }
    {
        let parents = fields::root_alone(alloc.clone()?)?;
        let active = fields::root_active(alloc.clone()?)?;
        let mut children = Lists::new(alloc)?;
        children.ensure_list(0)?;
        Ok(Tree {
            profile,
            parents,
            children,
            active,
        })
    }

    /// A copy of the tree.
    ///
    /// # Errors
    /// Where allocation fails.
    pub fn duplicate(&self, alloc: A) -> Result<Tree<A>, AllocError>
        ensures { IfOk result (λ t. t ≡ self.now) }
    {
        let parents = Vec::from_slice(alloc.clone()?, &self.parents)?;
        let active = self.active.duplicate(alloc.clone()?)?;
        let children = self.children.duplicate(alloc)?;
        Ok(Tree {
            profile: self.profile,
            parents,
            children,
            active,
        })
    }
}
